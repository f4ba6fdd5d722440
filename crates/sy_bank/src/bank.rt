// Why no bank is built.
ghost use Rattle.std.specs.Prelude.{◌≡◌};

use std::alloc::AllocFailed;
use sy_bank_level::{Bank, Kept};
use sy_terms::{Theory, Want};

/// Why no bank of all terms up to a size is built.
#[derive(Drop)]
pub enum BankEnd<T: Theory> {
    /// This bank keeps as many terms as it may, and the term for the nonterminal is new to it.
    Full(Bank<T>, u32, Kept<T>),
    Want,
}

impl<T: Theory> From<Want> for BankEnd<T> {
    ghost use Rattle.sy_bank.specs.declared.bank.BankEnd.TheVariants.{Want as WantOfMemory};

    ghost from_gives = { λ _ end. end ≡ WantOfMemory };

    fn from(_: Want) -> BankEnd<T> {
        BankEnd::Want
    }
}

impl<X: Drop, T: Theory> From<AllocFailed<X>> for BankEnd<T> {
    ghost use Rattle.sy_bank.specs.declared.bank.BankEnd.TheVariants.{Want as WantOfMemory};

    ghost from_gives = { λ _ end. end ≡ WantOfMemory };

    fn from(_: AllocFailed<X>) -> BankEnd<T> {
        BankEnd::Want
    }
}
