// Answers by way of the query without division, remainder and absolute value.
ghost use Rattle.std.specs.Prelude.{◌≡◌, ◌<◌, ◌^◌, length, take, IfOk};
ghost use Rattle.sy_terms.specs.Values.{Whole};
ghost use Rattle.sy_terms.specs.Expr.{nodes};
ghost use Rattle.sy_meaning_integers.specs.Lia.{owned, numeric};
ghost use Rattle.sy_query_base.specs.Asked.{query_of, QueryFits};
ghost use Rattle.sy_query_base.specs.Answers.{Answers};
ghost use Rattle.sy_lower_laws.specs.Lowering.{lowering};
ghost use Rattle.sy_intsolve_cuts.specs.Budgets.{budget};
ghost use Rattle.sy_intsolve.specs.Proofs.{Accepted, ShowsFor};

use crate::search::solve_query;
use std::alloc::{AllocError, Global};
use sy_intsolve_cuts::IntSpent;
use sy_linear_known::{Tree, is_numbered};
use sy_lower::{has_divisions, lower};
use sy_meaning_integers::IntTheory;
use sy_query_base::{Query, Verdict};
use sy_query_limits::Limits;
use sy_terms::{Seq, Value, Values, Want};

/// The first values.
fn shortened(alloc: Global, values: &[Value<i128>], count: usize) -> Result<Values<IntTheory>, Want>
    ensures { IfOk result (λ first. first ≡ take count values.now) }
{
    let mut first = Vec::with_capacity(alloc, values.len())?;
    first.extend_from_slice(values)?;
    first.truncate(count);
    Ok(Seq::from(first))
}

/// What the search answers to the lowered query, as an answer to the query itself: a model loses the values of the
/// fresh variables.
fn solve_lowered(
    alloc: Global,
    query: &Query<IntTheory>,
    lowered: &Query<IntTheory>,
    limits: &Limits,
) -> Result<Verdict<IntTheory, Tree, IntSpent>, Want>
    requires fits { QueryFits owned numeric (query_of Whole query.now) }
    requires lowered { query_of Whole lowered.now ≡ lowering (query_of Whole query.now) }
    ensures { IfOk result (Answers Whole Accepted budget ShowsFor (query_of Whole query.now) limits.now) }
{
    if !is_numbered(lowered) {
        return Err(AllocError);
    }
    let verdict = solve_query(alloc, lowered, limits)?;
    match verdict {
        Verdict::Never(tree) => Ok(Verdict::Never(tree)),
        Verdict::Model(values) => {
            let first = shortened(alloc, values.as_slice(), query.vars.len())?;
            Ok(Verdict::Model(first))
        }
        Verdict::Spent(spent) => Ok(Verdict::Spent(spent)),
    }
}

/// What the search answers: to the query itself where it has no division, remainder and absolute value, and else by its
/// lowering.
pub(crate) fn solved(
    alloc: Global,
    query: &Query<IntTheory>,
    limits: &Limits,
) -> Result<Verdict<IntTheory, Tree, IntSpent>, Want>
    requires { QueryFits owned numeric (query_of Whole query.now) }
    ensures { IfOk result (Answers Whole Accepted budget ShowsFor (query_of Whole query.now) limits.now) }
{
    if !has_divisions(query) {
        return solve_lowered(alloc, query, query, limits);
    }
    let lowered = lower(alloc, query)?;
    solve_lowered(alloc, query, &lowered, limits)
}
