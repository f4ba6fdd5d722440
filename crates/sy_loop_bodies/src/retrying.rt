// Bodies that were set aside, tried again.
ghost use Rattle.std.specs.Prelude.{◌≡◌, length, IfOk};
ghost use Rattle.sy_grammar_base.specs.Fits.{ProblemFits};
ghost use Rattle.sy_loop_bodies.specs.Clauses.{IsFoundFor};

use crate::aside::Aside;
use crate::body::{Task, try_body};
use crate::guess::is_small;
use sy_query_base::Decide;
use sy_terms::{Bodies, Term, Theory, Want};

/// The first of the bodies that were set aside that solves the problem; `None` where none was found to within the
/// limits.
pub fn solve_aside<T: Theory, D: Decide<T>>(
    task: &Task<T>,
    decide: &mut D,
    aside: &Aside<T>,
) -> Result<Option<(Bodies<T>, D::Proof)>, Want>
    requires problem { ProblemFits T.Theory task.now.problem.now }
    requires one { length task.now.problem.now.wanted ≡ 1 }
    ensures { IfOk result (IsFoundFor T.Theory D.Decide task.now.problem.now task.now.bound) }
{
    for term in aside.terms.as_slice() {
        if let Some(found) = solve_term(task, decide, term)? {
            return Ok(Some(found));
        }
    }
    Ok(None)
}

/// The term as the one body, where it is found to solve the problem.
fn solve_term<T: Theory, D: Decide<T>>(
    task: &Task<T>,
    decide: &mut D,
    term: &Term<T>,
) -> Result<Option<(Bodies<T>, D::Proof)>, Want>
    requires problem { ProblemFits T.Theory task.now.problem.now }
    requires one { length task.now.problem.now.wanted ≡ 1 }
    ensures { IfOk result (IsFoundFor T.Theory D.Decide task.now.problem.now task.now.bound) }
{
    let small = is_small(task, term)?;
    if !small {
        return Ok(None);
    }
    let copy = term.copy(task.alloc)?;
    let mut assignments = Vec::new(task.alloc);
    let mut aside = Aside::new(task.alloc);
    let found = try_body(task, decide, copy, &mut assignments, &mut aside)?;
    Ok(found)
}
