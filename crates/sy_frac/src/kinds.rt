// Kinds of fractions: those that may multiply a form, those below 1 or 0, and those that aren't whole.
ghost use Rattle.std.specs.Prelude.{◌≡◌, true, pos, int_lt};
ghost use Rattle.sy_frac.specs.Kinds as kinds;

use crate::frac::Frac;

/// Whether the fraction isn't negative.
pub fn is_multiplier(fraction: &Frac) -> bool
    ensures { result ≡ kinds.is_multiplier fraction.now }
{
    fraction.num() >= 0
}

/// Whether the multiplier is below 1.
pub fn is_below_one(multiplier: &Frac) -> bool
    ensures { result ≡ kinds.is_below_one multiplier.now }
{
    multiplier.num() < multiplier.den()
}

/// Whether the fraction is negative.
pub fn is_below_zero(number: &Frac) -> bool
    ensures { result ≡ int_lt number.now.num (pos 0) }
{
    number.num() < 0
}

/// The greatest whole number below a fraction that isn't whole; `None` exactly where it is whole.
pub fn broken(number: &Frac) -> Option<i128>
    ensures { kinds.Broken number.now result }
{
    if number.den() != 1 {
        return Some(number.floor());
    }
    None
}

/// Whether the fraction is known to be whole.
pub fn is_whole(number: &Frac) -> bool
    ensures { result ≡ true → number.now.den ≡ 1 }
{
    match broken(number) {
        None => true,
        Some(_) => false,
    }
}
