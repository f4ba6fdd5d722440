// Why a step isn't made.

use std::alloc::AllocFailed;
use sy_seq::Want;

/// Why a step isn't made.
#[derive(Clone, Copy, Debug, PartialEq, Eq)]
pub enum Fault {
    /// An operation on fractions doesn't fit.
    Unfit,
    Want,
}

impl From<Want> for Fault {
    ghost use Rattle.std.specs.Prelude.{◌≡◌};
    ghost use Rattle.sy_simplex.specs.declared.fault.Fault.TheVariants.{Want as WantOfMemory};

    ghost from_gives = { λ _ fault. fault ≡ WantOfMemory };

    fn from(_: Want) -> Fault {
        Fault::Want
    }
}

impl<X: Drop> From<AllocFailed<X>> for Fault {
    ghost use Rattle.std.specs.Prelude.{◌≡◌};
    ghost use Rattle.sy_simplex.specs.declared.fault.Fault.TheVariants.{Want as WantOfMemory};

    ghost from_gives = { λ _ fault. fault ≡ WantOfMemory };

    fn from(_: AllocFailed<X>) -> Fault {
        Fault::Want
    }
}
