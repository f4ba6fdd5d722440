// Combinations of kept terms by rules of the start symbol, tried in the order of a scan.
ghost use Rattle.std.specs.Prelude.{◌≡◌, length, IfOk, OnOk};
ghost use Rattle.sy_terms.specs.Denoted.{vals_of};
ghost use Rattle.sy_grammar_base.specs.Fits.{ProblemFits};
ghost use Rattle.sy_grammar_base.specs.Solving.{AreValues};
ghost use Rattle.sy_loop_bodies.specs.Clauses.{AreAssignedFor, IsFoundFor};

use crate::aside::Aside;
use crate::body::{Task, try_body};
use crate::columns::{columns, number, point_of};
use crate::guess::guessed_term;
use crate::shapes::{pools_of, shapes_of};
use crate::tuples::spaced_wishes;
use crate::wishes::Wish;
use std::alloc::Global;
use sy_bank_level::Bank;
use sy_grammar_base::Grammar;
use sy_loop_scan::{Scan, Shape};
use sy_query_base::Decide;
use sy_terms::{Bodies, Theory, Value, Values, Want};

/// How many combinations are tried at most.
const MOST_GUESSES: u32 = 4_096;

/// Of how much that constraints want at one assignment a scan is told at most.
const MOST_TOLD: usize = 64;

/// A scan, and what it was told of: the numbers of its shapes' rules, how many of the assignments, and the tuples at
/// which constraints want values there, each once.
#[derive(Drop)]
struct Scanning<T: Theory> {
    scan: Scan,
    rules: Vec<u32>,
    told: usize,
    tuples: Vec<Values<T>>,
}

/// The first combination in the scan's order that solves the problem as the one body; `None` where none was found to.
/// The scan knows what constraints want at the assignments.
pub fn solve_scanned<T: Theory, D: Decide<T>>(
    task: &Task<T>,
    decide: &mut D,
    bank: &Bank<T>,
    assignments: &mut Vec<Values<T>>,
    aside: &mut Aside<T>,
) -> Result<Option<(Bodies<T>, D::Proof)>, Want>
    requires problem { ProblemFits T.Theory task.now.problem.now }
    requires one { length task.now.problem.now.wanted ≡ 1 }
    requires assigned { AreAssignedFor T.Theory task.now.problem.now assignments.old.items }
    ensures assigned { OnOk result (AreAssignedFor T.Theory task.now.problem.now assignments.new.items) }
    ensures found { IfOk result (IsFoundFor T.Theory D.Decide task.now.problem.now task.now.bound) }
{
    let Some(wanted) = task.problem.wanted.get(0) else {
        return Ok(None);
    };
    let mut scanning = scanning_of(task, &wanted.grammar, bank)?;
    aside.allow(task.effort.undecided);
    solve_guessed(task, decide, bank, &mut scanning, assignments, aside)
}

/// A scan of the combinations of the bank's kept terms, which was told of no assignment.
fn scanning_of<T: Theory>(
    task: &Task<T>,
    grammar: &Grammar<T>,
    bank: &Bank<T>,
) -> Result<Scanning<T>, Want> {
    let shapes = shapes_of(task.alloc, grammar)?;
    let rules = rules_of(task.alloc, shapes.as_slice())?;
    let pools = pools_of(task.alloc, grammar, bank)?;
    let work = u64::from(task.effort.judged);
    let scan = Scan::new(task.alloc, shapes, pools, task.size, work)?;
    Ok(Scanning {
        scan,
        rules,
        told: 0,
        tuples: Vec::new(task.alloc),
    })
}

/// The numbers of the shapes' rules.
fn rules_of(alloc: Global, shapes: &[Shape]) -> Result<Vec<u32>, Want> {
    let mut rules = Vec::with_capacity(alloc, shapes.len())?;
    for shape in shapes {
        rules.push(shape.rule)?;
    }
    Ok(rules)
}

/// The first of the scan's next combinations that solves the problem as the one body; `None` where none was found to.
fn solve_guessed<T: Theory, D: Decide<T>>(
    task: &Task<T>,
    decide: &mut D,
    bank: &Bank<T>,
    scanning: &mut Scanning<T>,
    assignments: &mut Vec<Values<T>>,
    aside: &mut Aside<T>,
) -> Result<Option<(Bodies<T>, D::Proof)>, Want>
    requires problem { ProblemFits T.Theory task.now.problem.now }
    requires one { length task.now.problem.now.wanted ≡ 1 }
    requires assigned { AreAssignedFor T.Theory task.now.problem.now assignments.old.items }
    ensures assigned { OnOk result (AreAssignedFor T.Theory task.now.problem.now assignments.new.items) }
    ensures found { IfOk result (IsFoundFor T.Theory D.Decide task.now.problem.now task.now.bound) }
{
    let mut refuted = 0u32;
    for _ in 0..MOST_GUESSES {
        if aside.is_spent() || refuted >= task.effort.refuted {
            return Ok(None);
        }
        tell(task, bank, assignments.as_slice(), scanning)?;
        let Some((rule, places)) = next_guess(scanning)? else {
            return Ok(None);
        };
        if let Some(found) = try_guess(task, decide, bank, rule, places, assignments, aside)? {
            return Ok(Some(found));
        }
        if assignments.len() > scanning.told {
            refuted = refuted.saturating_add(1);
        }
    }
    Ok(None)
}

/// The rule of the next combination, and the places of its kept terms; `None` where there is none.
fn next_guess<T: Theory>(scanning: &mut Scanning<T>) -> Result<Option<(u32, Vec<usize>)>, Want> {
    let Some(guess) = scanning.scan.next_guess()? else {
        return Ok(None);
    };
    let Some(rule) = scanning.rules.get(guess.shape) else {
        return Ok(None);
    };
    Ok(Some((*rule, guess.parts)))
}

/// Tries what the rule gives of the kept terms of these places as the one body.
fn try_guess<T: Theory, D: Decide<T>>(
    task: &Task<T>,
    decide: &mut D,
    bank: &Bank<T>,
    rule: u32,
    places: Vec<usize>,
    assignments: &mut Vec<Values<T>>,
    aside: &mut Aside<T>,
) -> Result<Option<(Bodies<T>, D::Proof)>, Want>
    requires problem { ProblemFits T.Theory task.now.problem.now }
    requires one { length task.now.problem.now.wanted ≡ 1 }
    requires assigned { AreAssignedFor T.Theory task.now.problem.now assignments.old.items }
    ensures assigned { OnOk result (AreAssignedFor T.Theory task.now.problem.now assignments.new.items) }
    ensures found { IfOk result (IsFoundFor T.Theory D.Decide task.now.problem.now task.now.bound) }
{
    let Some(term) = guessed_term(task, bank, rule, places.as_slice())? else {
        return Ok(None);
    };
    try_body(task, decide, term, assignments, aside)
}

/// Tells the scan what constraints want at the assignments of which it wasn't told.
fn tell<T: Theory>(
    task: &Task<T>,
    bank: &Bank<T>,
    assignments: &[Values<T>],
    scanning: &mut Scanning<T>,
) -> Result<(), Want>
    requires problem { ProblemFits T.Theory task.now.problem.now }
    requires assigned { AreAssignedFor T.Theory task.now.problem.now assignments.now }
{
    for place in scanning.told..assignments.len() {
        tell_at(task, bank, assignments[place].as_slice(), scanning)?;
    }
    scanning.told = assignments.len();
    Ok(())
}

/// Tells the scan what constraints want at the assignment.
fn tell_at<T: Theory>(
    task: &Task<T>,
    bank: &Bank<T>,
    values: &[Value<T::Num>],
    scanning: &mut Scanning<T>,
) -> Result<(), Want>
    requires problem { ProblemFits T.Theory task.now.problem.now }
    requires values { AreValues task.now.problem.now.vars (vals_of T.denotes values.now) }
{
    for wish in spaced_wishes(task, values, MOST_TOLD)? {
        tell_wish(task, bank, wish, scanning)?;
    }
    Ok(())
}

/// Tells the scan what is wanted, if that is at a tuple that is new.
fn tell_wish<T: Theory>(
    task: &Task<T>,
    bank: &Bank<T>,
    wish: Wish<T>,
    scanning: &mut Scanning<T>,
) -> Result<(), Want>
    requires problem { ProblemFits T.Theory task.now.problem.now }
{
    if point_of::<T>(scanning.tuples.as_slice(), wish.tuple.as_slice()).is_some() {
        return Ok(());
    }
    let columns = columns(task, bank, wish.tuple.as_slice())?;
    scanning.scan.add_point(number::<T>(&wish.value), columns)?;
    scanning.tuples.push(wish.tuple)?;
    Ok(())
}
