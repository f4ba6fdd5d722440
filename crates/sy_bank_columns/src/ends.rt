// Why a row has no values.
ghost use Rattle.std.specs.Prelude.{◌≡◌};
ghost use Rattle.sy_bank_columns.specs.Found.{IsLoss};

use std::alloc::AllocFailed;
use sy_terms::Want;

/// Why there is no row.
#[derive(Clone, Copy, Debug, PartialEq, Eq)]
pub enum RowEnd {
    /// At the point of this number a value on the way lies outside 128 bits.
    Lost(u32),
    Want,
}

impl From<Want> for RowEnd {
    ghost use Rattle.sy_bank_columns.specs.declared.ends.RowEnd.TheVariants.{Want as WantOfMemory};

    ghost from_gives = { λ _ end. end ≡ WantOfMemory };

    fn from(_: Want) -> RowEnd {
        RowEnd::Want
    }
}

impl<X: Drop> From<AllocFailed<X>> for RowEnd {
    ghost use Rattle.sy_bank_columns.specs.declared.ends.RowEnd.TheVariants.{Want as WantOfMemory};

    ghost from_gives = { λ _ end. end ≡ WantOfMemory };

    fn from(_: AllocFailed<X>) -> RowEnd {
        RowEnd::Want
    }
}

/// What is lost at the point of this number; want of memory where it has more than 32 bits.
pub fn lost_at(number: usize) -> RowEnd
    ensures { IsLoss number result }
{
    match u32::try_from(number) {
        Ok(point) => RowEnd::Lost(point),
        Err(_) => RowEnd::Want,
    }
}
