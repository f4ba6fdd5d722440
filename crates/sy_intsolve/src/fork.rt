// Inner nodes with two sides, and the side at which a search goes on.
ghost use Rattle.std.specs.Prelude.{◌≡◌, ◌≤◌, ◌∷◌, ◌++◌, [], List, true, false, ℕ, IfOk, IfSome};
ghost use Rattle.sy_linear_known.specs.declared.path.Fact.{Fact as FactOf};
ghost use Rattle.sy_linear.specs.Judging.{AnswersAt, Adds};
ghost use Rattle.sy_linear_known.specs.Stored.{linear_query_of};
ghost use Rattle.sy_intsolve_cuts.specs.Growing.{fork_fact};
ghost use Rattle.sy_intsolve_cuts.specs.Stored.{side_of};
ghost use Rattle.sy_intsolve_cuts.specs.Points.{IsPointOf};
ghost use Rattle.sy_intsolve_cuts.specs.declared.step.Order.{Order};
ghost use Rattle.sy_intsolve.specs.Ways.{CanTurn, HasSides, GivesTwoFacts, GoesOn, room_after};
ghost use Rattle.sy_intsolve.specs.States.{nodes_left, IsState};

use crate::state::State;
use crate::way::Way;
use std::alloc::{AllocError, Global};
use sy_frac::Frac;
use sy_intsolve_cuts::{Fork, Step, kept, number_at};
use sy_linear::{branch, split};
use sy_linear_known::{CheckEnd, Fact, Test, Tree};
use sy_meaning_integers::IntTheory;
use sy_query_base::Query;
use sy_seq::{Seq, Want};
use sy_terms::Sort;

/// The facts that a node gives, which it is sure to give.
fn given_facts(outcome: Result<Option<(Fact, Fact)>, CheckEnd>) -> Result<(Fact, Fact), Want>
    requires { GivesTwoFacts outcome }
    ensures { (facts : FactOf × FactOf) → AnswersAt 0 outcome (Adds facts) → IfOk result (λ given. given ≡ facts) }
{
    match outcome {
        Ok(Some(facts)) => Ok(facts),
        Ok(None) | Err(CheckEnd::Range(_)) => unreachable!(),
        Err(CheckEnd::Want) => Err(AllocError),
    }
}

/// The facts of both sides, the left one first.
fn both_facts(alloc: Global, vars: &[Sort], fork: &Fork) -> Result<(Fact, Fact), Want>
    requires { HasSides vars.now fork.now }
    ensures { IfOk result (λ facts. facts ≡ (fork_fact true fork.now, fork_fact false fork.now)) }
{
    match fork {
        Fork::Split(test) => given_facts(split(alloc, vars, test, 0)),
        Fork::Branch(variable, bound) => given_facts(branch(alloc, vars, *variable, *bound, 0)),
    }
}

/// The fact of the left side, or else that of the right one.
fn fact_of(alloc: Global, vars: &[Sort], fork: &Fork, left: bool) -> Result<Fact, Want>
    requires { HasSides vars.now fork.now }
    ensures { IfOk result (λ fact. fact ≡ fork_fact left fork.now) }
{
    let (below, above) = both_facts(alloc, vars, fork)?;
    if left {
        drop(above);
        Ok(below)
    } else {
        drop(below);
        Ok(above)
    }
}

/// Whether the left side goes first: where the test is on a truth value or known to hold at the point, and of a bound.
pub(crate) fn goes_left(fork: &Fork, point: &[Frac]) -> bool {
    match fork {
        Fork::Split(Test::AtLeast(form)) => match number_at(form, point) {
            Some(number) => number.num() >= 0,
            None => false,
        },
        Fork::Split(Test::Holds(_)) | Fork::Branch(_, _) => true,
    }
}

/// The fact of the left side, or else that of the right one, and the point where it is known to meet the fact.
fn ahead(
    alloc: Global,
    query: &Query<IntTheory>,
    fork: &Fork,
    point: &[Frac],
    left: bool,
) -> Result<(Fact, Option<Seq<Frac>>), Want>
    requires { HasSides query.now.vars fork.now }
    ensures fact { IfOk result (λ found. found.0 ≡ fork_fact left fork.now) }
    ensures near { (path : List FactOf) → IsPointOf query.now.vars path point.now →
        IfOk result (λ found. IfSome found.1 (IsPointOf query.now.vars (path ++ found.0 ∷ []))) }
{
    let vars = query.vars.as_slice();
    let fact = fact_of(alloc, vars, fork, left)?;
    match kept(alloc, point, &fact) {
        Ok(near) => Ok((fact, near)),
        Err(want) => {
            drop(fact);
            Err(want)
        }
    }
}

/// The open leaf on the left of the fork at the end of the way, or else on its right, beside the other side, which
/// isn't begun where there is none; the way's inner nodes are counted with the fork and that side. The fork's point is
/// kept where it is known to meet the new fact. What isn't handed on is let go of by calls, since a proof walks through
/// all that a tree may be wherever one goes out of scope.
pub(crate) fn enter(
    alloc: Global,
    query: &Query<IntTheory>,
    way: Way,
    fork: Fork,
    point: Seq<Frac>,
    left: bool,
    other: Option<Tree>,
) -> Result<State, Want>
    requires { CanTurn query.now.vars way.facts.items fork }
    ensures state { (order : Order) (nodes : ℕ) → GoesOn order (linear_query_of query.now) way fork point left
        (side_of other) → way.inner ≤ nodes → IfOk result (IsState order (linear_query_of query.now) nodes) }
    ensures room { (nodes : ℕ) → IfOk result (λ next. nodes_left nodes next ≡ room_after nodes way (side_of other)) }
{
    let here = point.as_slice();
    match ahead(alloc, query, &fork, here, left) {
        Ok((fact, near)) => {
            let step = Step::to_side(left, fork, point, other);
            let next = way.longer(fact, step)?;
            Ok(State::Open(next, near))
        }
        Err(want) => {
            drop(fork);
            drop(other);
            Err(want)
        }
    }
}
