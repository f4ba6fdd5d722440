// The line of a refused reply.
ghost use Rattle.std.specs.Prelude.{◌≡◌, ◌++◌, OnOk, IfOk};
ghost use Rattle.sy_reply.specs.StatementsLines.{reply_cause_name, reply_refusal_line};

use crate::refusal::{fault_name, position, put_cause};
use crate::refused::{ReplyCause, ReplyRefused, reply_cause_number};
use crate::text::put;
use std::alloc::Global;
use sy_io::Bytes;
use sy_seq::Want;
use sy_text::write_numeral;

/// Appends the name of a cause.
#[tactic(auto, unfolding(crate::specs::StatementsLines::reply_cause_name))]
fn put_reply_cause(out: &mut Bytes, cause: &ReplyCause) -> Result<(), Want>
    ensures { OnOk result (out.new ≡ out.old ++ reply_cause_name cause.now) }
{
    match cause {
        ReplyCause::Count => put(out, "ReplyCount"),
        ReplyCause::Text(fault) => {
            put(out, "ReplyText ")?;
            put(out, fault_name(fault))
        }
        ReplyCause::Shape => put(out, "ReplyShape"),
        ReplyCause::Name => put(out, "ReplyName"),
        ReplyCause::Signature => put(out, "ReplySignature"),
        ReplyCause::Term(cause) => {
            put(out, "ReplyTerm ")?;
            put_cause(out, cause)
        }
        ReplyCause::ProofShape => put(out, "ProofShape"),
    }
}

/// The line `reply refused: check-synth K line L column C cause N NAME`, which ends with byte 10. The `check-synth`,
/// the line and the column are counted from 1; a place past the end counts as the end.
pub fn reply_refusal_text(alloc: Global, bytes: &[u8], r: &ReplyRefused) -> Result<Bytes, Want>
    ensures { IfOk result (λ text. text ≡ reply_refusal_line bytes.now r.now) }
{
    let (line, column) = position(bytes, r.place.at);
    let mut out = Bytes::new(alloc);
    put(&mut out, "reply refused: check-synth ")?;
    write_numeral(&mut out, r.check as u128)?;
    put(&mut out, " line ")?;
    write_numeral(&mut out, line as u128)?;
    put(&mut out, " column ")?;
    write_numeral(&mut out, column as u128)?;
    put(&mut out, " cause ")?;
    write_numeral(&mut out, reply_cause_number(&r.cause) as u128)?;
    put(&mut out, " ")?;
    put_reply_cause(&mut out, &r.cause)?;
    put(&mut out, "\n")?;
    Ok(out)
}
