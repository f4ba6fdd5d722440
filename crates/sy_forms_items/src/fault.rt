// Why an item isn't read.
ghost use Rattle.std.specs.Prelude.{◌≡◌};
ghost use Rattle.sy_forms_items.specs.declared.fault.ReadEnd.TheVariants.{Want as WantOfMemory};

use std::alloc::{AllocError, AllocFailed};
use sy_scope_causes::Cause;
use sy_text_items::Place;

/// The first condition that doesn't hold, and where.
#[derive(Clone, Copy, Debug, PartialEq, Eq)]
pub struct Fault {
    pub place: Place,
    pub cause: Cause,
}

/// Why nothing was read.
#[derive(Clone, Copy, Debug, PartialEq, Eq)]
pub enum ReadEnd {
    /// This condition doesn't hold, there.
    Refused(Place, Cause),
    /// Memory was wanted.
    Want,
}

impl From<AllocError> for ReadEnd {
    ghost from_gives = { λ _ e. e ≡ WantOfMemory };

    fn from(_e: AllocError) -> ReadEnd {
        ReadEnd::Want
    }
}

impl<T: Drop> From<AllocFailed<T>> for ReadEnd {
    ghost from_gives = { λ _ e. e ≡ WantOfMemory };

    fn from(_e: AllocFailed<T>) -> ReadEnd {
        ReadEnd::Want
    }
}

impl From<Fault> for ReadEnd {
    ghost use Rattle.sy_forms_items.specs.declared.fault.ReadEnd.TheVariants.{Refused};

    ghost from_gives = { λ fault e. e ≡ Refused fault.place fault.cause };

    fn from(fault: Fault) -> ReadEnd {
        ReadEnd::Refused(fault.place, fault.cause)
    }
}
