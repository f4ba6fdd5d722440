// What a path tells of a query.
ghost use Rattle.std.specs.Prelude.{◌≡◌, ◌<◌, ◌^◌, IfOk, length, true};
ghost use Rattle.sy_terms.specs.Expr.{nodes};
ghost use Rattle.sy_linear_known.specs.Seen as spec;
ghost use Rattle.sy_linear_known.specs.Right.{IsLinearQuery, IsMisfit, KnownIsRight};
ghost use Rattle.sy_linear_known.specs.Stored.{linear_query_of};
ghost use Rattle.sy_linear_known.specs.Fitting.{sight_fits, all_fit};

use crate::answer::Known;
use crate::facts::Facts;
use crate::form::Form;
use crate::path::{Fact, Path, given};
use crate::sight::{Seen, Sight};
use crate::walk::walk;
use std::alloc::Global;
use sy_meaning_integers::IntTheory;
use sy_query_base::Query;
use sy_seq::Want;
use sy_terms::Sort;

/// What the path tells of the variable of this number and sort.
fn variable_sight(alloc: Global, path: &[Fact], sort: Sort, number: u32) -> Result<Sight, Want>
    ensures sight { IfOk result (λ s. s ≡ spec.variable_sight path.now sort number) }
    ensures fits { IfOk result (λ s. sight_fits s ≡ true) }
{
    match sort {
        Sort::Int => {
            let form = Form::variable(alloc, number)?;
            Ok(Sight::Linear(form))
        }
        Sort::Bool => match given(number, path) {
            Some(truth) => Ok(Sight::Settled(truth)),
            None => Ok(Sight::Open),
        },
        Sort::Bits(_) => Ok(Sight::Open),
    }
}

/// What the path tells of the variables.
fn variable_sights(alloc: Global, path: &[Fact], vars: &[Sort]) -> Result<Vec<Sight>, Want>
    requires { length vars.now < 2 ^ 32 }
    ensures sights { IfOk result (λ names. names.items ≡ spec.variable_sights path.now 0 vars.now) }
    ensures fits { IfOk result (λ names. all_fit names.items ≡ true) }
{
    let mut names = Vec::new(alloc);
    let mut number = 0u32;
    for sort in vars {
        let sight = variable_sight(alloc, path, *sort, number)?;
        names.push(sight)?;
        number += 1;
    }
    Ok(names)
}

/// What is known by what was found: a node at which a form doesn't fit goes before the value, and the value before
/// the first open test. What isn't handed on is let go of by calls, which is proved faster than that it goes out of
/// scope.
fn known_of(seen: Seen) -> Known
    ensures { result ≡ spec.known_of seen }
{
    let Seen {
        sight,
        unknown,
        misfit,
    } = seen;
    let is_true = sight.is_true();
    let is_false = sight.is_false();
    drop(sight);
    if let Some(number) = misfit {
        drop(unknown);
        return Known::OutOfRange(number);
    }
    if is_true {
        drop(unknown);
        return Known::True;
    }
    if is_false {
        drop(unknown);
        return Known::False;
    }
    match unknown {
        Some(test) => Known::Undecided(test),
        None => Known::OutOfRange(0),
    }
}

/// How many nodes and variables a query may have, so that numbers of 32 bits count them.
const MOST: usize = 1 << 31;

/// Whether numbers of 32 bits count the query's nodes and variables: it has fewer than 2^31 of each.
pub fn is_numbered(q: &Query<IntTheory>) -> bool
    ensures nodes { result ≡ true → nodes (linear_query_of q.now).body < 2 ^ 31 }
    ensures vars { result ≡ true → length q.now.vars < 2 ^ 31 }
{
    q.vars.len() < MOST && q.body.size(MOST as u64) < MOST as u64
}

/// What the facts tell of the query, as `known` says it.
pub fn known_under(alloc: Global, q: &Query<IntTheory>, facts: &[Fact]) -> Result<Known, Want>
    requires nodes { nodes (linear_query_of q.now).body < 2 ^ 31 }
    requires vars { length q.now.vars < 2 ^ 31 }
    ensures known { IfOk result (λ k. k ≡ spec.query_known (linear_query_of q.now) facts.now) }
    ensures right { IfOk result (λ k. KnownIsRight (linear_query_of q.now) facts.now k) }
    ensures range { IsLinearQuery (linear_query_of q.now) →
        IfOk result (λ k. IsMisfit (linear_query_of q.now) facts.now k) }
{
    let vars = q.vars.as_slice();
    let mut names = variable_sights(alloc, facts, vars)?;
    let path = Facts::new(alloc, facts)?;
    let mut next = 0u32;
    let seen = walk(alloc, vars, &path, &mut names, &q.body, &mut next)?;
    Ok(known_of(seen))
}

/// What the path tells of the query. A sum, a difference, a product and each test of a comparison is a linear form
/// where 128 bits hold its numbers; a test is answered where its form is constant, or where it or its negation stands
/// in the path. Only nodes that known conditions don't leave out are looked at. A product of two terms that vary, an
/// operator that isn't of linear arithmetic and a call count as forms that don't fit.
pub fn known(alloc: Global, q: &Query<IntTheory>, path: &Path) -> Result<Known, Want>
    requires nodes { nodes (linear_query_of q.now).body < 2 ^ 31 }
    requires vars { length q.now.vars < 2 ^ 31 }
    ensures known { IfOk result (λ k. k ≡ spec.query_known (linear_query_of q.now) path.now.facts) }
    ensures right { IfOk result (λ k. KnownIsRight (linear_query_of q.now) path.now.facts k) }
    ensures range { IsLinearQuery (linear_query_of q.now) →
        IfOk result (λ k. IsMisfit (linear_query_of q.now) path.now.facts k) }
{
    let answer = known_under(alloc, q, path.facts.as_slice())?;
    Ok(answer)
}
