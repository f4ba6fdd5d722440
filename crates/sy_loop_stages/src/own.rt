// The bodies at which searches ended, and those that weren't decided before.
ghost use Rattle.std.specs.Prelude.{◌≡◌, length, IfOk, OnOk};
ghost use Rattle.sy_grammar_base.specs.Fits.{ProblemFits};
ghost use Rattle.sy_loop_bodies.specs.Clauses.{AreAssignedFor, IsFoundFor};

use crate::causes::is_undecided;
use crate::stage::Stage;
use sy_loop_bodies::{Aside, Task, solve_aside, try_term};
use sy_loop_spec::FailCause;
use sy_query_base::Decide;
use sy_terms::{Bodies, Theory, Values, Want};

/// Tries the bodies at which the search ended, where its cause says nothing against them: they ask for more tuples than
/// there may be, or their query weighs more than it may, which without variables is another matter.
pub(crate) fn try_own<T: Theory, D: Decide<T>>(
    task: &Task<T>,
    decide: &mut D,
    cause: &FailCause<T, D::Spent>,
    assignments: &mut Vec<Values<T>>,
    aside: &mut Aside<T>,
) -> Result<Option<(Bodies<T>, D::Proof)>, Want>
    requires problem { ProblemFits T.Theory task.now.problem.now }
    requires one { length task.now.problem.now.wanted ≡ 1 }
    requires assigned { AreAssignedFor T.Theory task.now.problem.now assignments.old.items }
    ensures assigned { OnOk result (AreAssignedFor T.Theory task.now.problem.now assignments.new.items) }
    ensures found { IfOk result (IsFoundFor T.Theory D.Decide task.now.problem.now task.now.bound) }
{
    let Some(bodies) = own_bodies::<T, D>(cause) else {
        return Ok(None);
    };
    let Some(term) = bodies.get(0) else {
        return Ok(None);
    };
    let copy = term.copy(task.alloc)?;
    try_term(task, decide, copy, assignments, aside)
}

/// The bodies at which the search ended, where its cause says nothing against them.
fn own_bodies<T: Theory, D: Decide<T>>(cause: &FailCause<T, D::Spent>) -> Option<&Bodies<T>> {
    match cause {
        FailCause::Points(_, _, bodies, _, _) => Some(bodies),
        FailCause::Weight(_, bodies) => Some(bodies),
        FailCause::Size => None,
        FailCause::Rounds(_) => None,
        FailCause::Bank(_, _, _, _, _) => None,
        FailCause::Decide(_, _, _) => None,
        FailCause::Range(_, _) => None,
    }
}

/// Tries bodies once more that were set aside in a stage before, where this one has larger limits for each. Where the
/// search ended by a body that wasn't decided, that is mostly the one that was set aside.
pub(crate) fn try_aside<T: Theory, D: Decide<T>>(
    task: &Task<T>,
    stage: &Stage,
    decide: &mut D,
    cause: &FailCause<T, D::Spent>,
    aside: &Aside<T>,
) -> Result<Option<(Bodies<T>, D::Proof)>, Want>
    requires problem { ProblemFits T.Theory task.now.problem.now }
    requires one { length task.now.problem.now.wanted ≡ 1 }
    ensures { IfOk result (IsFoundFor T.Theory D.Decide task.now.problem.now task.now.bound) }
{
    if !stage.again || is_undecided::<T, D>(cause) {
        return Ok(None);
    }
    solve_aside(task, decide, aside)
}
