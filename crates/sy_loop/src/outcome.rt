// The outcome of a search that a candidate ends.
// Functions here have more than seven parameters where clauses name the problem, the limits and the reach apart, as
// those of the crates below do: a record of them would be taken apart at each call.
ghost use Rattle.std.specs.Prelude.{◌≡◌, IfOk};
ghost use Rattle.sy_loop_candidate.specs.Clauses.{IsEndFor, IsKnownFor};
ghost use Rattle.sy_loop_candidate.specs.declared.step.End.TheVariants as ends;
ghost use Rattle.sy_loop_spec.specs.Right.{IsRightFor};
ghost use Rattle.sy_loop_claims.specs.Clauses.{FindsLeastFor};

use std::alloc::Global;
use sy_grammar_base::Problem;
use sy_loop_candidate::{End, Known};
use sy_loop_claims::{found, left_range};
use sy_loop_spec::{FailCause, Outcome, Reach};
use sy_points::Stored;
use sy_query_base::Decide;
use sy_query_limits::Limits;
use sy_terms::{Bodies, Seq, Theory, Values, Want, copied_values};

/// The outcome of a search that ends by a candidate. `Want` comes where memory doesn't suffice for a copy of a
/// function's tuples.
pub fn ended<T: Theory, D: Decide<T>>(
    alloc: Global,
    _problem: &Problem<T>,
    _limits: &Limits,
    _reach: Reach,
    end: End<T, D::Proof, D::Spent>,
    known: Known<T>,
) -> Result<Outcome<T, D::Proof, D::Spent>, Want>
    requires known { IsKnownFor T.Theory _reach _problem.now _limits.now known }
    requires end { IsEndFor T.Theory D.Decide _reach _problem.now _limits.now known end }
    ensures right { IfOk result (IsRightFor T.Theory D.Decide _reach _problem.now _limits.now) }
    ensures least { IfOk result (FindsLeastFor T.Theory _reach _problem.now) }
{
    match end {
        End::Found(bodies, proof) => {
            drop(known);
            Ok(found::<T, D>(_problem, _limits, _reach, bodies, proof))
        }
        End::Rounds => {
            drop(end);
            Ok(Outcome::Fail(FailCause::Rounds(stored_of(known))))
        }
        End::Points(function, bodies, assignment) => points_met::<T, D>(
            alloc, _problem, _limits, _reach, known, function, bodies, assignment,
        ),
        End::Weight(bodies) => Ok(Outcome::Fail(FailCause::Weight(stored_of(known), bodies))),
        End::Decide(bodies, spent) => {
            Ok(Outcome::Fail(FailCause::Decide(stored_of(known), bodies, spent)))
        }
        End::Checked(bodies, assignment) => {
            let stored = stored_of(known);
            Ok(left_range::<T, D>(_problem, _limits, _reach, stored, bodies, assignment))
        }
    }
}

/// The assignments that refuted candidates, of what a search knows.
fn stored_of<T: Theory>(known: Known<T>) -> Stored<T>
    ensures { result ≡ known.stored }
{
    known.stored
}

/// The outcome where the function of this number has as many tuples as it may, and the bodies ask for one more at the
/// assignment. It names copies of the function's tuples.
fn points_met<T: Theory, D: Decide<T>>(
    alloc: Global,
    _problem: &Problem<T>,
    _limits: &Limits,
    _reach: Reach,
    known: Known<T>,
    function: u32,
    bodies: Bodies<T>,
    assignment: Values<T>,
) -> Result<Outcome<T, D::Proof, D::Spent>, Want>
    requires { IsEndFor T.Theory D.Decide _reach _problem.now _limits.now known
        (ends.Points function bodies assignment) }
    ensures right { IfOk result (IsRightFor T.Theory D.Decide _reach _problem.now _limits.now) }
    ensures least { IfOk result (FindsLeastFor T.Theory _reach _problem.now) }
{
    let tuples = copied_tuples::<T>(alloc, known.points.of(function))?;
    let cause = FailCause::Points(known.stored, function, bodies, assignment, tuples);
    Ok(Outcome::Fail(cause))
}

/// The same tuples, in memory of their own.
fn copied_tuples<T: Theory>(alloc: Global, tuples: &Seq<Values<T>>) -> Result<Seq<Values<T>>, Want>
    ensures { IfOk result (λ copy. copy ≡ tuples.now) }
{
    let mut copy = Seq::new(alloc);
    for tuple in tuples.as_slice() {
        let values = copied_values::<T>(alloc, tuple.as_slice())?;
        copy.push(values)?;
    }
    Ok(copy)
}
