// The largest size of derivations.
ghost use Rattle.std.specs.Prelude.{◌≡◌, ℕ, ◌⊎◌, ◌<◌, ◌≤◌, map, MatchOption, IfOk, Some, None};
ghost use Rattle.sy_terms.specs.Denoted.{val_of};
ghost use Rattle.sy_grammar_base.specs.Grown.{syntax_from};
ghost use Rattle.sy_grammar_sizes.specs.Greatest.{IsLargest, IsExceeded};

use crate::leaves::leaf_table;
use crate::table::{entry, next_larger};
use std::alloc::Global;
use sy_grammar_base::Grammar;
use sy_terms::{Theory, Values, Want};

/// The largest size of a derivation from the start symbol, 0 where there is none; `None` exactly where some
/// derivation is larger than `cap`. Its time grows with `cap`.
pub fn largest<T: Theory>(
    alloc: Global,
    g: &Grammar<T>,
    pool: &Values<T>,
    cap: u32,
) -> Result<Option<u32>, Want>
    ensures { IfOk result (λ found. MatchOption found
        (IsExceeded (syntax_from T.denotes g.now) (map (val_of T.denotes) pool.now) cap)
        (λ size. IsLargest (syntax_from T.denotes g.now) (map (val_of T.denotes) pool.now) size × (size ≤ cap))) }
{
    let limit = u64::from(cap) + 1;
    let mut table = leaf_table::<T>(alloc, g, pool.as_slice(), limit)?;
    while let Some((nonterminal, size)) = next_larger(g, table.as_slice(), limit) {
        table[nonterminal] = Some(size);
    }
    Ok(within(entry(table.as_slice(), 0), cap))
}

/// The entry where it is at most `cap`, 0 where there is none; `None` exactly where it is larger.
fn within(entry: Option<u64>, cap: u32) -> Option<u32>
    ensures { MatchOption result
        ((size : ℕ) × (entry ≡ Some size) × (cap < size))
        (λ found. (found ≤ cap) × ((entry ≡ Some found) ⊎ ((entry ≡ None) × (found ≡ 0)))) }
{
    match entry {
        Some(size) => {
            if size <= u64::from(cap) {
                Some(size as u32)
            } else {
                None
            }
        }
        None => Some(0),
    }
}
