// The outcomes that a search claims.
ghost use Rattle.std.specs.Prelude.{◌≡◌, map, IfOk};
ghost use Rattle.sy_terms.specs.Denoted.{expr_of};
ghost use Rattle.sy_grammar_base.specs.Questions.{question_of};
ghost use Rattle.sy_query_base.specs.Solutions.{IsSolution};
ghost use Rattle.sy_loop_spec.specs.Right.{IsRightFor, LeavesFor};
ghost use Rattle.sy_loop_spec.specs.declared.outcome.LoopRange.TheVariants as ranges;
ghost use Rattle.sy_loop_claims.specs.Clauses.{FindsLeastFor, IsUnsolvedFor};
ghost use Rattle.sy_loop_claims.specs.Least.{AreLeast};

use crate::sizes::are_at_most;
use std::alloc::Global;
use sy_grammar_base::Problem;
use sy_loop_spec::{FailCause, LoopRange, Outcome, Reach};
use sy_points::Stored;
use sy_query_base::Decide;
use sy_query_limits::Limits;
use sy_terms::{Bodies, Theory, Values, Want};

/// The outcome where a search may have no round.
pub fn unbegun<T: Theory, D: Decide<T>>(
    alloc: Global,
    _problem: &Problem<T>,
    _limits: &Limits,
    _reach: Reach,
) -> Outcome<T, D::Proof, D::Spent>
    requires { _limits.now.rounds ≡ 0 }
    ensures right { IsRightFor T.Theory D.Decide _reach _problem.now _limits.now result }
    ensures least { FindsLeastFor T.Theory _reach _problem.now result }
{
    Outcome::Fail(FailCause::Rounds(Stored::new(alloc)))
}

/// The outcome where these bodies solve the problem and nothing in a lesser bound does: them, with the proof.
pub fn found<T: Theory, D: Decide<T>>(
    _problem: &Problem<T>,
    _limits: &Limits,
    _reach: Reach,
    bodies: Bodies<T>,
    proof: D::Proof,
) -> Outcome<T, D::Proof, D::Spent>
    requires solution { IsSolution D.accepted (question_of T.denotes _problem.now)
        (map (expr_of T.denotes) bodies) proof }
    requires least { AreLeast _reach (question_of T.denotes _problem.now) (map (expr_of T.denotes) bodies) }
    ensures right { IsRightFor T.Theory D.Decide _reach _problem.now _limits.now result }
    ensures least { FindsLeastFor T.Theory _reach _problem.now result }
{
    Outcome::Found(bodies, proof)
}

/// The outcome where an assumption or a constraint leaves the 128 bits under these bodies, at this assignment.
pub fn left_range<T: Theory, D: Decide<T>>(
    _problem: &Problem<T>,
    _limits: &Limits,
    _reach: Reach,
    stored: Stored<T>,
    bodies: Bodies<T>,
    assignment: Values<T>,
) -> Outcome<T, D::Proof, D::Spent>
    requires { LeavesFor T.Theory _reach _problem.now _limits.now stored (ranges.Checked bodies assignment) }
    ensures right { IsRightFor T.Theory D.Decide _reach _problem.now _limits.now result }
    ensures least { FindsLeastFor T.Theory _reach _problem.now result }
{
    let left = LoopRange::Checked(bodies, assignment);
    Outcome::Fail(FailCause::Range(stored, left))
}

/// The outcome where nothing up to the greatest size solves the problem. `Want` comes where memory doesn't suffice to
/// find the grammars' largest sizes.
pub fn exhausted<T: Theory, D: Decide<T>>(
    alloc: Global,
    problem: &Problem<T>,
    limits: &Limits,
    reach: Reach,
) -> Result<Outcome<T, D::Proof, D::Spent>, Want>
    requires { IsUnsolvedFor T.Theory reach problem.now limits.now }
    ensures right { IfOk result (IsRightFor T.Theory D.Decide reach problem.now limits.now) }
    ensures least { IfOk result (FindsLeastFor T.Theory reach problem.now) }
{
    if are_at_most(alloc, problem, limits.size)? {
        Ok(Outcome::Infeasible)
    } else {
        Ok(Outcome::Fail(FailCause::Size))
    }
}
