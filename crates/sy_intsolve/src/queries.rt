// Whether a query is one that the solver takes.
ghost use Rattle.std.specs.Prelude.{◌≡◌, ◌↔◌, IfOk, IsTrue};
ghost use Rattle.sy_terms.specs.Values.{Whole};
ghost use Rattle.sy_grammar_base.specs.Formed.{is_known};
ghost use Rattle.sy_meaning_integers.specs.Lia.{owned, numeric};
ghost use Rattle.sy_query_base.specs.Asked.{query_of, QueryFits};

use std::alloc::Global;
use sy_meaning::term_sort;
use sy_meaning_integers::IntTheory;
use sy_query_base::Query;
use sy_terms::{Sort, Want};

/// Whether variables may have the sort: truth values and integers.
fn is_sort(sort: Sort) -> bool
    ensures { result ≡ is_known numeric sort }
{
    match sort {
        Sort::Bool | Sort::Int => true,
        Sort::Bits(_) => false,
    }
}

/// Whether the query fits: its variables are truth values and integers, and its body is a truth value's term over them,
/// which calls nothing. `Want` comes where memory runs out, and nowhere else.
pub fn fits(alloc: Global, query: &Query<IntTheory>) -> Result<bool, Want>
    ensures { IfOk result (λ yes. IsTrue yes ↔ QueryFits owned numeric (query_of Whole query.now)) }
{
    let vars = query.vars.as_slice();
    if !vars.iter().all(|&sort| is_sort(sort)) {
        return Ok(false);
    }
    match term_sort::<IntTheory>(alloc, &[], &[], vars, &query.body)? {
        Some(Sort::Bool) => Ok(true),
        _ => Ok(false),
    }
}
