// Operations on fractions and whole numbers.
ghost use Rattle.std.specs.Prelude.{◌≡◌, ◌≤ℤ◌, pos};
ghost use Rattle.sy_linear.specs.Exact as spec;

use sy_frac::Frac;

/// The product of a fraction and a whole number, where each number fits.
pub(crate) fn multiple(factor: &Frac, number: i128) -> Option<Frac>
    ensures { result ≡ spec.whole_multiple factor.now number }
{
    let Some(whole) = Frac::new(number, 1) else {
        return None;
    };
    let _positive = factor.den();
    factor.mul(&whole)
}

/// That product and a fraction, where each number fits.
pub(crate) fn plus_multiple(factor: &Frac, number: i128, addend: &Frac) -> Option<Frac>
    ensures { result ≡ spec.checked_plus_multiple factor.now number addend.now }
{
    let Some(product) = multiple(factor, number) else {
        return None;
    };
    let _positive = (product.den(), addend.den());
    product.add(addend)
}

/// The fraction divided by a whole number, where each number fits.
pub(crate) fn over_whole(divisor: i128, fraction: &Frac) -> Option<Frac>
    requires { pos 1 ≤ℤ divisor }
    ensures { result ≡ spec.over_whole divisor fraction.now }
{
    let Some(whole) = Frac::new(divisor, 1) else {
        return None;
    };
    let _positive = fraction.den();
    fraction.div(&whole)
}

/// The greatest whole number that isn't above the fraction.
pub(crate) fn floor(fraction: &Frac) -> i128
    ensures { result ≡ spec.floor fraction.now }
{
    let _positive = fraction.den();
    fraction.floor()
}

/// Whether the fraction is a whole number.
pub(crate) fn is_whole(fraction: &Frac) -> bool
    ensures { result ≡ spec.is_whole fraction.now }
{
    fraction.den() == 1
}
