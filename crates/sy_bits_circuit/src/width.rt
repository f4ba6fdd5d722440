// How many bits values have.
ghost use Rattle.std.specs.Prelude.{◌≡◌};
ghost use Rattle.sy_bits_operators.specs.Signals.{sort_width};

use sy_terms::Sort;

/// How many bits a value of the sort has.
pub(crate) fn width_of(sort: Sort) -> u32
    ensures { result ≡ sort_width sort }
{
    match sort {
        Sort::Bool => 1,
        Sort::Int => 0,
        Sort::Bits(width) => u32::from(width),
    }
}
