// Constraints, each with the arguments to which it applies the function to be found.
ghost use Rattle.std.specs.Prelude.{◌≡◌, ◌↔◌, IsTrue, IfOk, MatchOption};
ghost use Rattle.sy_terms.specs.Denoted.{expr_of};
ghost use Rattle.sy_terms.specs.Expr.{Exprs};
ghost use Rattle.sy_grammar_base.specs.Questions.{question_of};
ghost use Rattle.sy_loop_spec.specs.Pointwise.{IsPosed, IsPointwise};
ghost use Rattle.sy_loop_spec.specs.WrittenOut.{written_out};
ghost use Rattle.sy_loop_pointwise.specs.Posed.{PosesConstraint, ArePosed};

use crate::asks::{Asks, all_asks};
use crate::table::Table;
use crate::writing::written;
use std::alloc::Global;
use sy_grammar_base::Problem;
use sy_terms::{Term, Theory, Want};

/// A constraint of a pointwise problem.
#[derive(Drop)]
pub enum Posed<T: Theory> {
    /// It applies no function to be found.
    Free,
    /// All its applications have the arguments of the one of this number among the subterms, and these contain none.
    Applies(Table<T>, usize),
}

/// The constraint; `None` exactly where its applications have no one list of arguments that contains none.
fn pose_one<T: Theory>(
    alloc: Global,
    problem: &Problem<T>,
    constraint: &Term<T>,
) -> Result<Option<Posed<T>>, Want>
    ensures { IfOk result (λ found. MatchOption found
        ((arguments : Exprs) →
        IsPosed (written_out (question_of T.denotes problem.now) (expr_of T.denotes constraint.now)) arguments → ⊥)
        (PosesConstraint (question_of T.denotes problem.now) (expr_of T.denotes constraint.now))) }
{
    let (table, number) = written(alloc, problem.vars.len(), constraint)?;
    let asks = all_asks(alloc, table.shapes())?;
    let own = asks.as_slice()[number as usize];
    match own {
        Asks::Nothing => Ok(Some(Posed::Free)),
        Asks::Calls(call) => Ok(Some(Posed::Applies(table, call))),
        Asks::Mixed => Ok(None),
    }
}

/// The constraints of a pointwise problem, in order; `None` exactly where the problem isn't pointwise.
pub fn pose<T: Theory>(alloc: Global, problem: &Problem<T>) -> Result<Option<Vec<Posed<T>>>, Want>
    ensures { IfOk result (λ found. MatchOption found
        (IsPointwise (question_of T.denotes problem.now) → ⊥)
        (λ all. IsPointwise (question_of T.denotes problem.now) ×
        ArePosed (question_of T.denotes problem.now) all.items)) }
{
    if problem.wanted.len() != 1 {
        return Ok(None);
    }
    let mut all = Vec::with_capacity(alloc, problem.constraints.len())?;
    for constraint in problem.constraints.as_slice() {
        match pose_one(alloc, problem, constraint)? {
            Some(posed) => all.push(posed)?,
            None => return Ok(None),
        }
    }
    Ok(Some(all))
}

/// Whether the problem is pointwise. `Want` comes also where 32 bits don't count its variables and the subterms of one
/// of its constraints.
pub fn pointwise<T: Theory>(alloc: Global, problem: &Problem<T>) -> Result<bool, Want>
    ensures { IfOk result (λ answer. IsTrue answer ↔ IsPointwise (question_of T.denotes problem.now)) }
{
    let posed = pose(alloc, problem)?;
    Ok(posed.is_some())
}
