// One search, and what lies beyond it.
ghost use Rattle.std.specs.Prelude.{◌≡◌, length, true, IfOk};
ghost use Rattle.sy_grammar_base.specs.Fits.{ProblemFits};
ghost use Rattle.sy_loop_spec.specs.declared.reach.Reach.TheVariants.{Joins};
ghost use Rattle.sy_loop_spec.specs.Right.{IsRightFor};
ghost use Rattle.sy_loop_spec.specs.declared.outcome.FailCause.TheVariants.{Size};
ghost use Rattle.sy_loop_stages.specs.Searched.{FindsInFor, Lasts};

use crate::beyond::found_beyond;
use crate::stage::Stage;
use std::alloc::Global;
use sy_grammar_base::Problem;
use sy_loop::synthesise;
use sy_loop_bodies::Aside;
use sy_loop_spec::{FailCause, Outcome};
use sy_query_base::Decide;
use sy_terms::{Theory, Want};

/// The outcome of `synthesise` within the stage's limits; but where that is a fail, a solution that is found after
/// it, if one is. Else the outcome stays as it was: what is learned beyond it is no part of it.
pub(crate) fn run_stage<T: Theory, D: Decide<T>>(
    alloc: Global,
    problem: &Problem<T>,
    stage: &Stage,
    decide: &mut D,
    aside: &mut Aside<T>,
) -> Result<Outcome<T, D::Proof, D::Spent>, Want>
    requires problem { ProblemFits T.Theory problem.now }
    requires one { length problem.now.wanted ≡ 1 }
    ensures right { IfOk result (IsRightFor T.Theory D.Decide Joins problem.now stage.now.limits) }
    ensures found { IfOk result (FindsInFor T.Theory D.Decide problem.now stage.now.limits) }
{
    let outcome = synthesise(alloc, problem, &stage.limits, decide)?;
    let found = match found_beyond(alloc, problem, stage, decide, &outcome, aside) {
        Ok(found) => found,
        Err(want) => {
            discard::<T, D>(outcome);
            return Err(want);
        }
    };
    if let Some((bodies, proof)) = found {
        discard::<T, D>(outcome);
        return Ok(Outcome::Found(bodies, proof));
    }
    Ok(outcome)
}

/// Lets go of an outcome.
pub(crate) fn discard<T: Theory, D: Decide<T>>(_outcome: Outcome<T, D::Proof, D::Spent>) {}

/// Whether the outcome of a search with fewer kept terms, clauses and nodes serves for the whole search: it is no
/// fail, or comes of the greatest size.
pub(crate) fn lasts<T: Theory, D: Decide<T>>(outcome: &Outcome<T, D::Proof, D::Spent>) -> bool
    ensures { result ≡ true → Lasts outcome.now }
{
    match outcome {
        Outcome::Found(_, _) => true,
        Outcome::Infeasible => true,
        Outcome::Fail(cause) => is_size::<T, D>(cause),
    }
}

/// Whether the search ended after the greatest size.
pub(crate) fn is_size<T: Theory, D: Decide<T>>(cause: &FailCause<T, D::Spent>) -> bool
    ensures { result ≡ true → cause.now ≡ Size }
{
    match cause {
        FailCause::Size => true,
        FailCause::Rounds(_) => false,
        FailCause::Points(_, _, _, _, _) => false,
        FailCause::Bank(_, _, _, _, _) => false,
        FailCause::Weight(_, _) => false,
        FailCause::Decide(_, _, _) => false,
        FailCause::Range(_, _) => false,
    }
}
