// The search over further banks, in which terms are told apart at more tuples.
ghost use Rattle.std.specs.Prelude.{◌≡◌, length, IfOk, IfSome, OnOk};
ghost use Rattle.sy_grammar_base.specs.Fits.{ProblemFits};
ghost use Rattle.sy_loop_bodies.specs.Clauses.{AreAssignedFor, IsBankFor, IsFoundFor};

use crate::banks::bank_over;
use sy_bank::Bank;
use sy_loop_bodies::{
    Aside, Task, mixed_assignment, point_of, solve_kept, solve_scanned, wished_tuples,
};
use sy_loop_chosen::solve_chosen;
use sy_query_base::Decide;
use sy_terms::{Bodies, Theory, Values, Want, copied_values};

/// How many assignments that look random are added.
const MIXED: u64 = 4;

/// At how many tuples that constraints want terms are told apart at most, apart from those at which bodies were wrong.
const MOST_TUPLES: usize = 64;

/// How often a bank is built anew since a body that chooses was wrong at tuples that it didn't have.
const MOST_ROUNDS: u32 = 5;

/// The first body that is found to solve the problem over banks at the tuples of all assignments so far and of some
/// that look random: a full bank keeps terms that differ at the tuples that counterexamples asked, which are often
/// alike. `None` where none was found to.
pub(crate) fn solve_again<T: Theory, D: Decide<T>>(
    task: &Task<T>,
    decide: &mut D,
    assignments: &mut Vec<Values<T>>,
    aside: &mut Aside<T>,
) -> Result<Option<(Bodies<T>, D::Proof)>, Want>
    requires problem { ProblemFits T.Theory task.now.problem.now }
    requires one { length task.now.problem.now.wanted ≡ 1 }
    requires assigned { AreAssignedFor T.Theory task.now.problem.now assignments.old.items }
    ensures { IfOk result (IsFoundFor T.Theory D.Decide task.now.problem.now task.now.bound) }
{
    add_mixed(task, assignments)?;
    for _ in 0..task.effort.banks {
        let known = assignments.len();
        if let Some(found) = solve_wished(task, decide, assignments, aside)? {
            return Ok(Some(found));
        }
        if assignments.len() == known {
            return Ok(None);
        }
    }
    Ok(None)
}

/// The first body that is found to solve the problem over a bank at the tuples that constraints want at the
/// assignments; also over banks at some at which bodies that choose were wrong.
fn solve_wished<T: Theory, D: Decide<T>>(
    task: &Task<T>,
    decide: &mut D,
    assignments: &mut Vec<Values<T>>,
    aside: &mut Aside<T>,
) -> Result<Option<(Bodies<T>, D::Proof)>, Want>
    requires problem { ProblemFits T.Theory task.now.problem.now }
    requires one { length task.now.problem.now.wanted ≡ 1 }
    requires assigned { AreAssignedFor T.Theory task.now.problem.now assignments.old.items }
    ensures assigned { OnOk result (AreAssignedFor T.Theory task.now.problem.now assignments.new.items) }
    ensures found { IfOk result (IsFoundFor T.Theory D.Decide task.now.problem.now task.now.bound) }
{
    let mut wrong = Vec::new(task.alloc);
    for round in 0..MOST_ROUNDS {
        let known = wrong.len();
        let is_last = round + 1 == MOST_ROUNDS;
        if let Some(found) = solve_round(task, decide, is_last, &mut wrong, assignments, aside)? {
            return Ok(Some(found));
        }
        if wrong.len() == known {
            return Ok(None);
        }
    }
    Ok(None)
}

/// The first body that is found to solve the problem over one bank, at the tuples that constraints want at the
/// assignments and at those at which bodies were wrong. Where it adds to the latter, larger bodies are left to the last
/// round.
fn solve_round<T: Theory, D: Decide<T>>(
    task: &Task<T>,
    decide: &mut D,
    is_last: bool,
    wrong: &mut Vec<Values<T>>,
    assignments: &mut Vec<Values<T>>,
    aside: &mut Aside<T>,
) -> Result<Option<(Bodies<T>, D::Proof)>, Want>
    requires problem { ProblemFits T.Theory task.now.problem.now }
    requires one { length task.now.problem.now.wanted ≡ 1 }
    requires assigned { AreAssignedFor T.Theory task.now.problem.now assignments.old.items }
    ensures assigned { OnOk result (AreAssignedFor T.Theory task.now.problem.now assignments.new.items) }
    ensures found { IfOk result (IsFoundFor T.Theory D.Decide task.now.problem.now task.now.bound) }
{
    let known = wrong.len();
    let Some(bank) = wished_bank(task, wrong.as_slice(), assignments.as_slice())? else {
        return Ok(None);
    };
    if let Some(found) = solve_over(task, decide, &bank, wrong, assignments, aside)? {
        return Ok(Some(found));
    }
    if wrong.len() > known && !is_last {
        return Ok(None);
    }
    solve_last(task, decide, &bank, wrong, assignments, aside)
}

/// The first combination of kept terms that is found to solve the problem, or else a larger body that chooses or stands
/// below known operations.
fn solve_last<T: Theory, D: Decide<T>>(
    task: &Task<T>,
    decide: &mut D,
    bank: &Bank<T>,
    wrong: &mut Vec<Values<T>>,
    assignments: &mut Vec<Values<T>>,
    aside: &mut Aside<T>,
) -> Result<Option<(Bodies<T>, D::Proof)>, Want>
    requires problem { ProblemFits T.Theory task.now.problem.now }
    requires one { length task.now.problem.now.wanted ≡ 1 }
    requires assigned { AreAssignedFor T.Theory task.now.problem.now assignments.old.items }
    ensures assigned { OnOk result (AreAssignedFor T.Theory task.now.problem.now assignments.new.items) }
    ensures found { IfOk result (IsFoundFor T.Theory D.Decide task.now.problem.now task.now.bound) }
{
    if let Some(found) = solve_scanned(task, decide, bank, assignments, aside)? {
        return Ok(Some(found));
    }
    solve_chosen(task, decide, bank, true, wrong, assignments, aside)
}

/// A bank of the one function at these tuples and at those that constraints want at the assignments; `None` where there
/// is none, or one of them isn't of the function's arguments.
fn wished_bank<T: Theory>(
    task: &Task<T>,
    wrong: &[Values<T>],
    assignments: &[Values<T>],
) -> Result<Option<Bank<T>>, Want>
    requires problem { ProblemFits T.Theory task.now.problem.now }
    requires one { length task.now.problem.now.wanted ≡ 1 }
    requires assigned { AreAssignedFor T.Theory task.now.problem.now assignments.now }
    ensures { IfOk result (λ found. IfSome found (IsBankFor T.Theory task.now.problem.now)) }
{
    let mut tuples = wished_tuples(task, assignments, MOST_TUPLES)?;
    for tuple in wrong {
        if point_of::<T>(tuples.as_slice(), tuple.as_slice()).is_none() {
            let copy = copied_values::<T>(task.alloc, tuple.as_slice())?;
            tuples.push(copy)?;
        }
    }
    if tuples.is_empty() {
        return Ok(None);
    }
    bank_over(
        task.alloc,
        task.problem,
        tuples.as_slice(),
        task.size,
        task.limits.bank,
    )
}

/// Adds assignments that look random; where there are no variables the only one, once.
fn add_mixed<T: Theory>(task: &Task<T>, assignments: &mut Vec<Values<T>>) -> Result<(), Want>
    requires assigned { AreAssignedFor T.Theory task.now.problem.now assignments.old.items }
    ensures assigned { OnOk result (AreAssignedFor T.Theory task.now.problem.now assignments.new.items) }
{
    let closed = task.problem.vars.len() == 0;
    if closed && !assignments.is_empty() {
        return Ok(());
    }
    let count = if closed { 1 } else { MIXED };
    for seed in 0..count {
        let found = mixed_assignment::<T>(task.alloc, task.problem.vars.as_slice(), seed)?;
        let Some(values) = found else {
            return Ok(());
        };
        assignments.push(values)?;
    }
    Ok(())
}

/// The first kept term of the bank that is found to solve the problem, or else a body that chooses between such.
fn solve_over<T: Theory, D: Decide<T>>(
    task: &Task<T>,
    decide: &mut D,
    bank: &Bank<T>,
    wrong: &mut Vec<Values<T>>,
    assignments: &mut Vec<Values<T>>,
    aside: &mut Aside<T>,
) -> Result<Option<(Bodies<T>, D::Proof)>, Want>
    requires problem { ProblemFits T.Theory task.now.problem.now }
    requires one { length task.now.problem.now.wanted ≡ 1 }
    requires bank { IsBankFor T.Theory task.now.problem.now bank.now }
    requires assigned { AreAssignedFor T.Theory task.now.problem.now assignments.old.items }
    ensures assigned { OnOk result (AreAssignedFor T.Theory task.now.problem.now assignments.new.items) }
    ensures found { IfOk result (IsFoundFor T.Theory D.Decide task.now.problem.now task.now.bound) }
{
    aside.allow(task.effort.undecided);
    let upto = task.size.min(task.bound);
    for size in 0..=upto {
        let kept = bank.kept(0, size);
        if let Some(found) = solve_kept(task, decide, kept, assignments, aside)? {
            return Ok(Some(found));
        }
    }
    solve_chosen(task, decide, bank, false, wrong, assignments, aside)
}
