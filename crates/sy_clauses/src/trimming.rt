// A log without the lines that its last one doesn't need.
ghost use Rattle.std.specs.Prelude.{◌≡◌, ◌≤◌, ℕ, length, map, slice_index_or, IfOk};
ghost use Rattle.sy_clauses.specs.Clauses.{Refutes};
ghost use Rattle.sy_clauses.specs.Names.{EachIsNamed};
ghost use Rattle.sy_clauses.specs.Needed.{needs};
ghost use Rattle.sy_clauses.specs.Numbers.{line_renumbered, lines_left, number_in};

use crate::marking::{is_needed, needed_lines};
use crate::numbering::Numbering;
use crate::{Cnf, Line, Log};
use std::alloc::{AllocError, Global};
use sy_seq::{Seq, Want};

/// The log without the lines that its last clause doesn't need, directly or through others. Where the log refutes the
/// formula, so does this one, and each of its lines but the last is named by a later one. The time and the memory are
/// linear in the size of the log.
pub fn trimmed(alloc: Global, cnf: &Cnf, log: &Log) -> Result<Log, Want>
    ensures law { IfOk result (λ shorter. Refutes cnf.now log.now → Refutes cnf.now shorter) }
    ensures needed { IfOk result (λ shorter. EachIsNamed (length cnf.now.clauses) shorter.lines) }
    ensures no_longer { IfOk result (λ shorter. length shorter.lines ≤ length log.now.lines) }
{
    let formula = cnf.clauses.len();
    let lines = log.lines.as_slice();
    let needed = needed_lines(alloc, formula, lines)?;
    let numbering = Numbering::new(alloc, formula, &needed)?;
    let lines = kept_lines(alloc, lines, &needed, &numbering)?;
    Ok(Log { lines })
}

/// The needed lines, with new numbers.
fn kept_lines(
    alloc: Global,
    lines: &[Line],
    needed: &[bool],
    numbering: &Numbering,
) -> Result<Seq<Line>, Want>
    requires { (place : ℕ) → slice_index_or numbering.now.before.items place numbering.now.all ≤ place }
    ensures { IfOk result (λ kept. kept
        ≡ map (line_renumbered (number_in numbering.now)) (lines_left (needs needed.now) 0 lines.now)) }
{
    let mut kept = Seq::new(alloc);
    for (place, line) in lines.iter().enumerate() {
        if is_needed(needed, place) {
            let line = numbering.renumbered(alloc, line)?;
            kept.push(line)?;
        }
    }
    Ok(kept)
}
