// Terms of any origin that are tried as the one body.
ghost use Rattle.std.specs.Prelude.{◌≡◌, length, IfOk, OnOk};
ghost use Rattle.sy_grammar_base.specs.Fits.{ProblemFits};
ghost use Rattle.sy_loop_bodies.specs.Clauses.{AreAssignedFor, IsFoundFor};

use crate::aside::Aside;
use crate::body::{Task, try_body};
use crate::guess::is_small;
use sy_query_base::Decide;
use sy_terms::{Bodies, Term, Theory, Values, Want};

/// Tries the term as the one body, as a kept term is tried: at the assignments, and where it meets the problem there,
/// by the solver. `None` where it wasn't found to solve the problem, or no derivation of it lies within the task's
/// bound. An assignment at which the solver sees it violate the problem is one more; a term that isn't decided is set
/// aside.
pub fn try_term<T: Theory, D: Decide<T>>(
    task: &Task<T>,
    decide: &mut D,
    term: Term<T>,
    assignments: &mut Vec<Values<T>>,
    aside: &mut Aside<T>,
) -> Result<Option<(Bodies<T>, D::Proof)>, Want>
    requires problem { ProblemFits T.Theory task.now.problem.now }
    requires one { length task.now.problem.now.wanted ≡ 1 }
    requires assigned { AreAssignedFor T.Theory task.now.problem.now assignments.old.items }
    ensures assigned { OnOk result (AreAssignedFor T.Theory task.now.problem.now assignments.new.items) }
    ensures found { IfOk result (IsFoundFor T.Theory D.Decide task.now.problem.now task.now.bound) }
{
    let small = is_small(task, &term)?;
    if !small {
        return Ok(None);
    }
    try_body(task, decide, term, assignments, aside)
}
