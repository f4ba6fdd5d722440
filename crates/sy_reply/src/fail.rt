// The line of a problem without an answer.
ghost use Rattle.std.specs.Prelude.{◌≡◌, IfOk};
ghost use Rattle.sy_reply.specs.Lines as lines;

use crate::text::put;
use std::alloc::Global;
use sy_io::Bytes;
use sy_query_limits::FailName;
use sy_seq::Want;
use sy_text::write_numeral;

/// The name of what ended a search, as it is written.
#[tactic(auto, unfolding(crate::specs::Lines::fail_name))]
pub fn name_text(name: FailName) -> &'static str
    ensures { result.now ≡ lines.fail_name name }
{
    match name {
        FailName::Size => "Size",
        FailName::Rounds => "Rounds",
        FailName::Points => "Points",
        FailName::Bank => "Bank",
        FailName::Weight => "Weight",
        FailName::Clauses => "Clauses",
        FailName::Nodes => "Nodes",
        FailName::Pivots => "Pivots",
        FailName::Range => "Range",
    }
}

/// The line `fail: check-synth K NAME` of the problem `check`, counted from 1. It ends with byte 10.
pub fn fail_line(alloc: Global, check: u32, name: FailName) -> Result<Bytes, Want>
    ensures { IfOk result (λ text. text ≡ lines.fail_line check name) }
{
    let mut out = Bytes::new(alloc);
    put(&mut out, "fail: check-synth ")?;
    write_numeral(&mut out, check as u128)?;
    put(&mut out, " ")?;
    put(&mut out, name_text(name))?;
    put(&mut out, "\n")?;
    Ok(out)
}
