// The ends of a search: a model, or what shows that a budget was met.
ghost use Rattle.std.specs.Prelude.{◌≡◌, ◌≤◌, ℕ, Some, length, IfOk};
ghost use Rattle.sy_query_limits.specs.declared.Limits.{Limits as LimitsOf};
ghost use Rattle.sy_linear_known.specs.declared.answer.Known.TheVariants as known;
ghost use Rattle.sy_linear_known.specs.Right.{KnownIsRight};
ghost use Rattle.sy_linear_known.specs.Seen.{LinearQuery as QueryOf, query_seen};
ghost use Rattle.sy_linear_known.specs.Stored.{linear_query_of};
ghost use Rattle.sy_linear_known.specs.Trees.{forms};
ghost use Rattle.sy_simplex.specs.Runs.{RunIsSpent, IsOutOfRange};
ghost use Rattle.sy_intsolve_paths_laws.specs.Paths.{IsPath};
ghost use Rattle.sy_intsolve_cuts.specs.Points.{IsPointOf, ValuesAreWhole};
ghost use Rattle.sy_intsolve_cuts.specs.declared.step.Order.{Order};
ghost use Rattle.sy_intsolve_cuts.specs.Growing.{Unfinished};
ghost use Rattle.sy_intsolve_cuts.specs.Steps as spec;
ghost use Rattle.sy_intsolve_cuts.specs.Stored.{grown_tree_of, layers_of};
ghost use Rattle.sy_intsolve.specs.Ways.{IsNumberedQuery, IsWay};
ghost use Rattle.sy_intsolve.specs.States.{IsTurn};

use crate::state::Turn;
use crate::way::Way;
use std::alloc::Global;
use sy_frac::Frac;
use sy_intsolve_cuts::{IntRange, IntSpent, plugged, values_of};
use sy_linear_known::{Path, Tree};
use sy_meaning_integers::IntTheory;
use sy_query_base::{Query, Verdict};
use sy_seq::{Seq, Want};
use sy_simplex::Run;

/// The tree so far, unfinished at the way's end, and the way's path.
fn plugged_way(alloc: Global, way: Way) -> Result<(Tree, Path), Want>
    ensures tree { IfOk result (λ left. grown_tree_of left.0 ≡ spec.plugged (layers_of way.steps.items) Unfinished) }
    ensures path { IfOk result (λ left. left.1.facts ≡ way.facts.items) }
{
    let Way {
        facts,
        steps,
        inner: _,
    } = way;
    let tree = plugged(alloc, steps, Tree::Unfinished)?;
    let path = Path {
        facts: Seq::from(facts),
    };
    Ok((tree, path))
}

/// The end with the tree so far, whose inner nodes are as many as allowed.
pub(crate) fn spent_nodes(alloc: Global, way: Way) -> Result<Turn, Want>
    ensures { (order : Order) (query : QueryOf) (limits : LimitsOf) (before : ℕ) →
        IsWay order query way Unfinished → way.inner ≡ limits.nodes → IfOk result (IsTurn order query limits before) }
{
    let tree = plugged(alloc, way.steps, Tree::Unfinished)?;
    Ok(Turn::Over(Verdict::Spent(IntSpent::Nodes(tree))))
}

/// The end with the tree so far and the way's path, under which the simplex method took as many steps as allowed.
pub(crate) fn spent_pivots(alloc: Global, way: Way, run: Run) -> Result<Turn, Want>
    ensures { (order : Order) (query : QueryOf) (limits : LimitsOf) (before : ℕ) → IsWay order query way Unfinished →
        way.inner ≤ limits.nodes → RunIsSpent (length query.vars) (forms way.facts.items) limits.pivots run.steps →
        IfOk result (IsTurn order query limits before) }
{
    let (tree, path) = plugged_way(alloc, way)?;
    Ok(Turn::Over(Verdict::Spent(IntSpent::Pivots(tree, path, run))))
}

/// The end with the tree so far and the way's path, under which an operation of the simplex method doesn't fit.
pub(crate) fn spent_range(alloc: Global, way: Way, run: Run) -> Result<Turn, Want>
    ensures { (order : Order) (query : QueryOf) (limits : LimitsOf) (before : ℕ) → IsWay order query way Unfinished →
        way.inner ≤ limits.nodes → IsOutOfRange (length query.vars) (forms way.facts.items) limits.pivots run.steps →
        IfOk result (IsTurn order query limits before) }
{
    let (tree, path) = plugged_way(alloc, way)?;
    Ok(Turn::Over(Verdict::Spent(IntSpent::Range(tree, IntRange::Simplex(path, run)))))
}

/// The end with the tree so far and the way's path, under which a form of the query isn't built at the node of this
/// number.
pub(crate) fn spent_known(alloc: Global, way: Way, node: u32) -> Result<Turn, Want>
    ensures { (order : Order) (query : QueryOf) (limits : LimitsOf) (before : ℕ) →
        IsWay order query way Unfinished → way.inner ≤ limits.nodes →
        (query_seen query way.facts.items).misfit ≡ Some node → IfOk result (IsTurn order query limits before) }
{
    let (tree, path) = plugged_way(alloc, way)?;
    Ok(Turn::Over(Verdict::Spent(IntSpent::Range(tree, IntRange::Known(path, node)))))
}

/// The end with the assignment of a whole point of the way's path, which makes the query true.
pub(crate) fn model(
    alloc: Global,
    query: &Query<IntTheory>,
    way: &Way,
    point: &[Frac],
) -> Result<Turn, Want>
    requires asked { IsNumberedQuery (linear_query_of query.now) }
    requires path { IsPath query.now.vars way.now.facts.items }
    requires right { KnownIsRight (linear_query_of query.now) way.now.facts.items known.True }
    requires at { IsPointOf query.now.vars way.now.facts.items point.now }
    requires whole { ValuesAreWhole point.now }
    ensures { (order : Order) (limits : LimitsOf) (before : ℕ) →
        IfOk result (IsTurn order (linear_query_of query.now) limits before) }
{
    let vars = query.vars.as_slice();
    let facts = way.facts.as_slice();
    let values = values_of(alloc, vars, facts, point)?;
    Ok(Turn::Over(Verdict::Model(values)))
}
