// How large a query is whose clauses can be counted.
ghost use Rattle.std.specs.Prelude.{◌≡◌, ◌+◌, ◌*◌, ◌≤◌, ◌<◌, ◌^◌, IfOk, MatchOption};
ghost use Rattle.sy_query_base.specs.Asked.{query_of, QueryFits};
ghost use Rattle.sy_meaning_words.specs.Vectors.{vector, owned, is_bits};
ghost use Rattle.sy_bits_operators.specs.Signals as signals;
ghost use Rattle.sy_bits_circuit.specs.Clauses.{query_size};

use std::alloc::{AllocError, Global};
use sy_meaning_words::BvTheory;
use sy_query::{Built, weigh};
use sy_query_base::Query;
use sy_terms::{Sort, Want};

/// The greatest size of a query whose circuit clauses are sure to be fewer than 2^31: they are at most 1000 for each
/// unit of size.
pub(crate) const LARGEST: u32 = 2_147_483;

/// How many bits a value of the sort has.
fn sort_width(sort: Sort) -> u8
    ensures { result ≡ signals.sort_width sort }
{
    match sort {
        Sort::Bool => 1,
        Sort::Int => 0,
        Sort::Bits(width) => width,
    }
}

/// What is left of the room after a value of each sort; `None` exactly where they have more bits.
fn room_after(sorts: &[Sort], room: u32) -> Option<u32>
    ensures { MatchOption result
        (room < signals.total_width sorts.now)
        (λ left. left + signals.total_width sorts.now ≡ room) }
{
    let mut left = room;
    for sort in sorts {
        left = left.checked_sub(u32::from(sort_width(*sort)))?;
    }
    Some(left)
}

/// The query's size, where the variables and the clauses of its circuit are sure to be fewer than 2^31 each.
pub(crate) fn countable_size(alloc: Global, query: &Query<BvTheory>) -> Result<Option<u32>, Want>
    requires { QueryFits owned is_bits (query_of vector query.now) }
    ensures { IfOk result (λ found. MatchOption found
        (2 ^ 31 ≤ 1000 * query_size (query_of vector query.now))
        (λ size. (size ≡ query_size (query_of vector query.now)) ×
        (1000 * query_size (query_of vector query.now) < 2 ^ 31))) }
{
    let Some(room) = room_after(query.vars.as_slice(), LARGEST) else {
        return Ok(None);
    };
    match weigh(alloc, query, room) {
        Ok(weight) => Ok(Some(weight + (LARGEST - room))),
        Err(Built::Heavy) => Ok(None),
        Err(Built::Want) => Err(AllocError),
    }
}
