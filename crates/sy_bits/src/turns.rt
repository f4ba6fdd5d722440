// Short searches before the long one. How hard a formula is depends much on the order of decisions, and nothing tells
// beforehand which order suits it.
ghost use Rattle.std.specs.Prelude.{◌≡◌, ◌<◌, ◌^◌, IfOk, IfSome, length};
ghost use Rattle.sy_clauses.specs.Clauses.{VarsFit};
ghost use Rattle.sy_cdcl.specs.Answer.{AnswersFormula};

use std::alloc::{AllocError, Global};
use sy_cdcl::{Plan, Solved, Start, USUAL_PLAN, solve, solve_by};
use sy_clauses::Cnf;
use sy_terms::Want;

/// A search that ends early: its plan, and how many clauses it may learn.
#[derive(Clone, Copy)]
struct Turn {
    plan: Plan,
    clauses: u32,
}

/// The short searches, in order.
const TURNS: [Turn; 3] = [
    Turn {
        plan: USUAL_PLAN,
        clauses: 4_000,
    },
    Turn {
        plan: Plan {
            start: Start::LastVariable,
            aging: 6,
        },
        clauses: 12_000,
    },
    Turn {
        plan: Plan {
            start: Start::LastVariable,
            aging: 2,
        },
        clauses: 12_000,
    },
];

/// A search that learns at most an eighth of `fuel`; none where that didn't decide the formula.
fn search_shortly(alloc: Global, cnf: &Cnf, turn: Turn, fuel: u32) -> Result<Option<Solved>, Want>
    requires vars { VarsFit cnf.now }
    requires clauses_fit { length cnf.now.clauses < 2 ^ 31 }
    requires fuel_fits { fuel < 2 ^ 31 }
    ensures { IfOk result (λ found. IfSome found (AnswersFormula cnf.now fuel)) }
{
    match solve_by(alloc, cnf, turn.plan, turn.clauses.min(fuel / 8))? {
        Solved::Refuted(log) => Ok(Some(Solved::Refuted(log))),
        Solved::Model(values) => Ok(Some(Solved::Model(values))),
        Solved::Fuel(log) => {
            drop(log);
            Ok(None)
        }
    }
}

/// Decides the formula, with at most `fuel` learned clauses, by short searches and then by a long one. Each begins
/// anew, so `Fuel` has the clauses of the long one alone.
pub fn solve_in_turns(alloc: Global, cnf: &Cnf, fuel: u32) -> Result<Solved, Want>
    requires vars { VarsFit cnf.now }
    requires clauses_fit { length cnf.now.clauses < 2 ^ 31 }
    requires fuel_fits { fuel < 2 ^ 31 }
    ensures { IfOk result (λ solved. AnswersFormula cnf.now fuel solved) }
{
    for turn in TURNS {
        if let Some(solved) = search_shortly(alloc, cnf, turn, fuel)? {
            return Ok(solved);
        }
    }
    solve(alloc, cnf, fuel)
}
