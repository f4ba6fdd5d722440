// Kept terms up to a size.
ghost use Rattle.std.specs.Prelude.{◌≡◌, ◌+◌, ◌++◌, IfOk, OnOk};
ghost use Rattle.sy_bank_level.specs.Bank.{merged_of};
ghost use Rattle.sy_bank_level.specs.Stored.{chosen_of, entries_of};
ghost use Rattle.sy_loop_spec.specs.Trees.{kept_below};

use std::alloc::Global;
use sy_bank_level::{Bank, Kept};
use sy_terms::{Theory, Want};

/// What the bank keeps for the nonterminal at sizes of at most `level`, by size and then in the order in which it was
/// found.
pub(crate) fn kept_up_to<'a, T: Theory>(
    alloc: Global,
    bank: &'a Bank<T>,
    nonterminal: u32,
    level: u32,
) -> Result<Vec<&'a Kept<T>>, Want>
    ensures { IfOk result (λ kept. chosen_of T.denotes kept.items ≡
        kept_below (merged_of T.denotes bank.now).levels nonterminal (level + 1)) }
{
    let mut all = Vec::new(alloc);
    for size in 0..u64::from(level) + 1 {
        push_all(&mut all, bank.kept(nonterminal, size as u32))?;
    }
    Ok(all)
}

/// Appends all of the kept terms.
fn push_all<'a, T: Theory>(all: &mut Vec<&'a Kept<T>>, kept: &'a [Kept<T>]) -> Result<(), Want>
    ensures { OnOk result (chosen_of T.denotes all.new.items ≡
        chosen_of T.denotes all.old.items ++ entries_of T.denotes kept.now) }
{
    for term in kept {
        all.push(term)?;
    }
    Ok(())
}
