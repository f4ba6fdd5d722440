// The line of a refused file.
ghost use Rattle.std.specs.Prelude.{◌≡◌, ◌++◌, OnOk, IfOk};
ghost use Rattle.sy_scope_causes.specs.Causes as causes;
ghost use Rattle.sy_reply.specs.Lines.{line_of, column_of, refusal_line};

use crate::text::put;
use std::alloc::Global;
use sy_io::Bytes;
use sy_scope_causes::{Cause, Refused, cause_number};
use sy_seq::Want;
use sy_text::{line_column, write_numeral};
use sy_text_items::TextFault;

/// The name of a fault of the text.
#[tactic(auto, unfolding(sy_scope_causes::specs::Causes::fault_name))]
pub fn fault_name(fault: &TextFault) -> &'static str
    ensures { result.now ≡ causes.fault_name fault.now }
{
    match fault {
        TextFault::BadByte(_) => "BadByte",
        TextFault::Unclosed(_) => "Unclosed",
        TextFault::Stray(_) => "Stray",
        TextFault::LiteralRange(_) => "LiteralRange",
        TextFault::TooDeep(_) => "TooDeep",
    }
}

/// Appends the name of a cause.
#[tactic(auto, unfolding(sy_scope_causes::specs::Causes::cause_name))]
pub fn put_cause(out: &mut Bytes, cause: &Cause) -> Result<(), Want>
    ensures { OnOk result (out.new ≡ out.old ++ causes.cause_name cause.now) }
{
    match cause {
        Cause::Text(fault) => {
            put(out, "Text ")?;
            put(out, fault_name(fault))
        }
        Cause::CommandNotInProfile => put(out, "CommandNotInProfile"),
        Cause::Shape => put(out, "Shape"),
        Cause::Logic => put(out, "Logic"),
        Cause::Feature => put(out, "Feature"),
        Cause::UnknownSort => put(out, "UnknownSort"),
        Cause::Width => put(out, "Width"),
        Cause::UnknownName => put(out, "UnknownName"),
        Cause::NameTaken => put(out, "NameTaken"),
        Cause::SortMismatch => put(out, "SortMismatch"),
        Cause::Nonlinear => put(out, "Nonlinear"),
        Cause::LiteralRange => put(out, "LiteralRange"),
        Cause::FunctionNotHere => put(out, "FunctionNotHere"),
        Cause::Predeclared => put(out, "Predeclared"),
        Cause::InvShape => put(out, "InvShape"),
        Cause::TooMany => put(out, "TooMany"),
    }
}

/// The line and the column of an offset, each counted from 1; one past the end counts as the end.
pub fn position(bytes: &[u8], at: usize) -> (usize, usize)
    ensures line { result.0 ≡ line_of bytes.now at }
    ensures column { result.1 ≡ column_of bytes.now at }
{
    line_column(bytes, at.min(bytes.len()))
}

/// The line `refused: command K line L column C cause N NAME`, which ends with byte 10. The command, the line and
/// the column are counted from 1; a place past the end counts as the end.
pub fn refusal_text(alloc: Global, bytes: &[u8], r: &Refused) -> Result<Bytes, Want>
    ensures { IfOk result (λ text. text ≡ refusal_line bytes.now r.now) }
{
    let (line, column) = position(bytes, r.place.at);
    let mut out = Bytes::new(alloc);
    put(&mut out, "refused: command ")?;
    write_numeral(&mut out, r.command as u128)?;
    put(&mut out, " line ")?;
    write_numeral(&mut out, line as u128)?;
    put(&mut out, " column ")?;
    write_numeral(&mut out, column as u128)?;
    put(&mut out, " cause ")?;
    write_numeral(&mut out, cause_number(&r.cause) as u128)?;
    put(&mut out, " ")?;
    put_cause(&mut out, &r.cause)?;
    put(&mut out, "\n")?;
    Ok(out)
}
