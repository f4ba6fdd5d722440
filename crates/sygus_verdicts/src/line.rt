// The line of a verdict.
ghost use Rattle.std.specs.Prelude.{◌≡◌, IfOk};
ghost use Rattle.sygus_verdicts.specs.Clauses.{verdict_for};
ghost use Rattle.sygus_verdicts.specs.Lines.{verdict_line};
ghost use Rattle.sygus_verdicts.specs.Verdicts.{IsPrintable};

use crate::judge::Judge;
use std::alloc::Global;
use sy_io::Bytes;
use sy_reply::put;
use sy_scope_causes::Titles;
use sy_terms::{Theory, Want};
use sy_text::write_numeral;

/// The line `check-synth K VERDICT` of the reply number `check`, counted from 1, of which this was found where it gives
/// definitions. It ends with byte 10.
#[tactic(auto, unfolding(crate::specs::Lines::verdict_text))]
pub(crate) fn line_of<T: Theory, J: Judge<T>>(
    alloc: Global,
    titles: &Titles,
    check: u32,
    answer: &Option<J::Found>,
) -> Result<Bytes, Want>
    requires { IsPrintable (verdict_for J.Judge answer.now) }
    ensures { IfOk result (λ text. text ≡ verdict_line titles.now check (verdict_for J.Judge answer.now)) }
{
    let mut out = Bytes::new(alloc);
    put(&mut out, "check-synth ")?;
    write_numeral(&mut out, check as u128)?;
    put(&mut out, " ")?;
    match answer {
        Some(found) => J::put_verdict(&mut out, titles, found)?,
        None => put(&mut out, "no definitions")?,
    }
    put(&mut out, "\n")?;
    Ok(out)
}
