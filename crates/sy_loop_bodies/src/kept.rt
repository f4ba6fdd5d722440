// Kept terms that are tried as the one body.
ghost use Rattle.std.specs.Prelude.{IfOk, OnOk};
ghost use Rattle.sy_bank_level.specs.Stored.{entries_of};
ghost use Rattle.sy_grammar_base.specs.Fits.{ProblemFits};
ghost use Rattle.sy_loop_bodies.specs.Clauses.{AreAssignedFor, AreSmallFor, IsFoundFor};

use crate::aside::Aside;
use crate::body::{Task, try_body};
use sy_bank_level::Kept;
use sy_query_base::Decide;
use sy_terms::{Bodies, Theory, Values, Want};

/// The first of the kept terms that solves the problem as the one body; `None` where none was found to, or no more may
/// be left undecided.
pub fn solve_kept<T: Theory, D: Decide<T>>(
    task: &Task<T>,
    decide: &mut D,
    kept: &[Kept<T>],
    assignments: &mut Vec<Values<T>>,
    aside: &mut Aside<T>,
) -> Result<Option<(Bodies<T>, D::Proof)>, Want>
    requires problem { ProblemFits T.Theory task.now.problem.now }
    requires kept { AreSmallFor T.Theory task.now.problem.now task.now.bound (entries_of T.denotes kept.now) }
    requires assigned { AreAssignedFor T.Theory task.now.problem.now assignments.old.items }
    ensures assigned { OnOk result (AreAssignedFor T.Theory task.now.problem.now assignments.new.items) }
    ensures found { IfOk result (IsFoundFor T.Theory D.Decide task.now.problem.now task.now.bound) }
{
    for entry in kept {
        if aside.is_spent() {
            return Ok(None);
        }
        let term = entry.term(task.alloc)?;
        if let Some(found) = try_body(task, decide, term, assignments, aside)? {
            return Ok(Some(found));
        }
    }
    Ok(None)
}
