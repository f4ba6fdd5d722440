// What levels keep for a nonterminal.
ghost use Rattle.std.specs.Prelude.{◌≡◌, [], MatchOption};
ghost use Rattle.sy_bank_level.specs.Banks.{kept_at};
ghost use Rattle.sy_bank_level.specs.Stored.{entries_of};
ghost use Rattle.sy_bank_level.specs.Task.{levels_of};

use sy_bank_level::{Kept, Level};
use sy_terms::Theory;

/// What is kept for the nonterminal at the size; `None` only where nothing is.
pub fn kept_terms<'a, T: Theory>(
    levels: &'a [Level<T>],
    nonterminal: u32,
    size: usize,
) -> Option<&'a [Kept<T>]>
    ensures { MatchOption result (kept_at (levels_of T.denotes levels.now) nonterminal size ≡ []) (λ kept.
        entries_of T.denotes kept.now ≡ kept_at (levels_of T.denotes levels.now) nonterminal size) }
{
    let level = levels.get(size)?;
    let nonterminal = nonterminal as usize;
    if nonterminal < level.len() {
        Some(level.of(nonterminal).as_slice())
    } else {
        None
    }
}
