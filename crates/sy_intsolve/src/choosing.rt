// The test of a split.
ghost use Rattle.std.specs.Prelude.{IfOk, IfSome};
ghost use Rattle.sy_linear_known.specs.Stored.{linear_query_of};
ghost use Rattle.sy_intsolve_paths_laws.specs.Paths.{IsPath};
ghost use Rattle.sy_intsolve.specs.Ways.{IsNumberedQuery, IsSplit};

use crate::plan::Plan;
use crate::way::Way;
use std::alloc::Global;
use sy_intsolve_cuts::Order;
use sy_intsolve_order::Guide;
use sy_linear_known::Test;
use sy_meaning_integers::IntTheory;
use sy_query_base::Query;
use sy_seq::Want;

/// The test that the guide chooses, where any may be taken; none where it finds no open one.
pub(crate) fn guessed_test(
    alloc: Global,
    query: &Query<IntTheory>,
    plan: &Plan,
    guide: &mut Guide,
    way: &Way,
) -> Result<Option<Test>, Want>
    requires asked { IsNumberedQuery (linear_query_of query.now) }
    requires path { IsPath query.now.vars way.now.facts.items }
    ensures { IfOk result (λ found.
        IfSome found (IsSplit plan.now.order (linear_query_of query.now) way.now.facts.items)) }
{
    match plan.order {
        Order::First => Ok(None),
        Order::Free => {
            let facts = way.facts.as_slice();
            let found = guide.choose(alloc, query, facts)?;
            Ok(found)
        }
    }
}
