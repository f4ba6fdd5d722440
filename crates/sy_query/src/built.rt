// Why there is no query.
ghost use Rattle.std.specs.Prelude.{◌≡◌};

use std::alloc::AllocFailed;
use sy_terms::Want;

/// Why there is no query.
#[derive(Clone, Copy, Debug, PartialEq, Eq)]
pub enum Built {
    /// It weighs more than the limit.
    Heavy,
    Want,
}

impl From<Want> for Built {
    ghost use Rattle.sy_query.specs.declared.built.Built.TheVariants.{Want as WantOfMemory};

    ghost from_gives = { λ _ end. end ≡ WantOfMemory };

    fn from(_: Want) -> Built {
        Built::Want
    }
}

impl<X: Drop> From<AllocFailed<X>> for Built {
    ghost use Rattle.sy_query.specs.declared.built.Built.TheVariants.{Want as WantOfMemory};

    ghost from_gives = { λ _ end. end ≡ WantOfMemory };

    fn from(_: AllocFailed<X>) -> Built {
        Built::Want
    }
}
