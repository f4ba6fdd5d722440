// The checker of resolution logs.
ghost use Rattle.std.specs.Prelude.{◌≡◌, ◌++◌, OnOk, IfOk, IsTrue, ◌↔◌, slice_get, Some, None, MatchOption, MatchBool};
ghost use Rattle.sy_clauses.specs.Clauses.{literals, known_clauses, after_step, line_clause, all_clauses, IsEmpty, EndsEmpty, Refutes, HasNoModel};
ghost use Rattle.sy_clauses.specs.Marking.{clause_of, MarksAreListed};

use crate::marks::Marks;
use crate::{Cnf, Line, Lit, Log, Step};
use std::alloc::{AllocError, Global};
use sy_seq::{Seq, Want};

/// The clause at this place of a list.
fn item_at<'a>(clauses: &'a [Seq<Lit>], index: usize) -> Option<&'a [Lit]>
    ensures { MatchOption result
        (slice_get clauses.now index ≡ None)
        (λ c. slice_get clauses.now index ≡ Some c.now) }
{
    match clauses.get(index) {
        Some(clause) => Some(clause.as_slice()),
        None => None,
    }
}

/// The clause of this number, counted through the formula and then what was derived from it.
#[tactic(auto, using(crate::proofs::Known::known_first, crate::proofs::Known::known_later))]
pub fn clause_at<'a>(cnf: &'a Cnf, derived: &'a [Seq<Lit>], number: u32) -> Option<&'a [Lit]>
    ensures { MatchOption result
        (slice_get (known_clauses cnf.now.clauses derived.now) number ≡ None)
        (λ c. slice_get (known_clauses cnf.now.clauses derived.now) number ≡ Some (literals c.now)) }
{
    let index = number as usize;
    let count = cnf.clauses.len();
    if index < count {
        item_at(cnf.clauses.as_slice(), index)
    } else {
        item_at(derived, index - count)
    }
}

/// Makes the step from the marked clause; whether it can be made.
pub fn advance(marks: &mut Marks, cnf: &Cnf, derived: &[Seq<Lit>], step: Step) -> Result<bool, Want>
    requires { MarksAreListed marks.old }
    ensures exact { IfOk result (λ done. MatchBool done
        (after_step (known_clauses cnf.now.clauses derived.now) (clause_of marks.old) step ≡ Some (clause_of marks.new))
        (after_step (known_clauses cnf.now.clauses derived.now) (clause_of marks.old) step ≡ None)) }
    ensures listed { OnOk result (MarksAreListed marks.new) }
{
    match clause_at(cnf, derived, step.with) {
        Some(with) => marks.resolve(step.var, with),
        None => Ok(false),
    }
}

/// Marks the line's clause; whether it has one.
fn follow(marks: &mut Marks, cnf: &Cnf, derived: &[Seq<Lit>], line: &Line) -> Result<bool, Want>
    requires empty { IsEmpty (clause_of marks.old) }
    requires listed { MarksAreListed marks.old }
    ensures exact { IfOk result (λ done. MatchBool done
        (line_clause (known_clauses cnf.now.clauses derived.now) line.now ≡ Some (clause_of marks.new))
        (line_clause (known_clauses cnf.now.clauses derived.now) line.now ≡ None)) }
    ensures listed { OnOk result (MarksAreListed marks.new) }
{
    let Some(first) = clause_at(cnf, derived, line.first) else {
        return Ok(false);
    };
    marks.load(first)?;
    let steps = line.steps.as_slice();
    for step in steps {
        if !advance(marks, cnf, derived, *step)? {
            return Ok(false);
        }
    }
    Ok(true)
}

/// Whether there is a last clause, and it is empty.
fn ends_empty(cnf: &Cnf, derived: &[Seq<Lit>]) -> bool
    ensures { IsTrue result ↔ EndsEmpty (known_clauses cnf.now.clauses derived.now) }
{
    let clauses = cnf.clauses.as_slice();
    match derived.last() {
        Some(clause) => clause.len() == 0,
        None => match clauses.last() {
            Some(clause) => clause.len() == 0,
            None => false,
        },
    }
}

/// Whether the log refutes the formula: every line is a fold of resolvents of clauses before it, and
/// the last clause, of the formula's and the lines' together, is empty. Then the formula has no model.
/// The time is linear in the sizes of the clauses that the lines name, and the memory in the largest
/// variable and in the sizes of the lines' clauses.
pub fn check(alloc: Global, cnf: &Cnf, log: &Log) -> Result<bool, Want>
    ensures exact { IfOk result (λ yes. IsTrue yes ↔ Refutes cnf.now log.now) }
    ensures law { IfOk result (λ yes. IsTrue yes → HasNoModel cnf.now) }
{
    let mut marks = Marks::new(alloc);
    let mut derived = Vec::new(alloc);
    let lines = log.lines.as_slice();
    for line in lines {
        if !follow(&mut marks, cnf, &derived, line)? {
            return Ok(false);
        }
        let clause = marks.take(alloc)?;
        derived.push(clause)?;
    }
    Ok(ends_empty(cnf, &derived))
}
