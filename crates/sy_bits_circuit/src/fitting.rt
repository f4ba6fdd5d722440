// Whether a query is one that the solver takes.
ghost use Rattle.std.specs.Prelude.{◌≡◌, ◌↔◌, IfOk, IsTrue};
ghost use Rattle.sy_grammar_base.specs.Formed.{is_known};
ghost use Rattle.sy_query_base.specs.Asked.{query_of, QueryFits};
ghost use Rattle.sy_meaning_words.specs.Vectors.{vector, owned, is_bits};

use std::alloc::Global;
use sy_meaning::term_sort;
use sy_meaning_words::BvTheory;
use sy_query_base::Query;
use sy_terms::{Sort, Want};

/// Whether variables may have the sort: truth values, and vectors of 1 to 64 bits.
fn is_sort(sort: Sort) -> bool
    ensures { result ≡ is_known is_bits sort }
{
    match sort {
        Sort::Bool => true,
        Sort::Int => false,
        Sort::Bits(width) => 1 <= width && width <= 64,
    }
}

/// Whether the query fits: its variables are truth values and vectors of 1 to 64 bits, and its body is a truth value's
/// term over them, which calls nothing.
pub fn fits(alloc: Global, query: &Query<BvTheory>) -> Result<bool, Want>
    ensures { IfOk result (λ yes. IsTrue yes ↔ QueryFits owned is_bits (query_of vector query.now)) }
{
    let vars = query.vars.as_slice();
    if !vars.iter().all(|&sort| is_sort(sort)) {
        return Ok(false);
    }
    match term_sort::<BvTheory>(alloc, &[], &[], vars, &query.body)? {
        Some(Sort::Bool) => Ok(true),
        _ => Ok(false),
    }
}
