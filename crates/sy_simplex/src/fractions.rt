// Operations on fractions.
ghost use Rattle.std.specs.Prelude.{◌≡◌, ◌≢◌, ◌<◌, pos, MatchOption};
ghost use Rattle.sy_frac.specs.Fraction.{IsInRange, IsLowest};
ghost use Rattle.sy_simplex.specs.Operations.{fraction_opposite as opposite_of, fraction_of_whole as whole_fraction, IsPlusProduct, PlusProductUnfit, IsShift, ShiftUnfit};

use sy_frac::Frac;

/// The fraction of a whole number; `None` exactly where the number is `-2^127`.
pub fn whole(number: i128) -> Option<Frac>
    ensures { MatchOption result (¬ (IsInRange number)) (λ f. IsInRange number × (f ≡ whole_fraction number)) }
{
    Frac::new(number, 1)
}

/// The fraction 0.
pub fn zero() -> Frac
    ensures { result ≡ whole_fraction (pos 0) }
{
    match Frac::new(0, 1) {
        Some(f) => f,
        None => unreachable!(),
    }
}

/// The fraction 1.
pub fn one() -> Frac
    ensures { result ≡ whole_fraction (pos 1) }
{
    match Frac::new(1, 1) {
        Some(f) => f,
        None => unreachable!(),
    }
}

/// The opposite fraction.
pub fn negated(f: &Frac) -> Frac
    ensures { result ≡ opposite_of f.now }
{
    match Frac::new(-f.num(), f.den()) {
        Some(g) => g,
        None => unreachable!(),
    }
}

/// A fraction and the product of two, by a product and a sum; `None` exactly where one of them doesn't fit.
pub(crate) fn plus_product(own: &Frac, factor: &Frac, other: &Frac) -> Option<Frac>
    ensures { MatchOption result (PlusProductUnfit own.now factor.now other.now) (λ f.
        IsPlusProduct own.now factor.now other.now f) }
{
    let _lowest = own.num();
    let (multiplier, multiplied) = (factor.num(), other.num());
    if multiplier == 0 || multiplied == 0 {
        return Some(*own);
    }
    match factor.mul(other) {
        Some(product) => own.add(&product),
        None => None,
    }
}

/// What a variable is raised by, so that its row's variable comes from `value` to `bound`: the difference of the two
/// over the row's coefficient; `None` exactly where the difference or the quotient doesn't fit.
pub(crate) fn shift(bound: &Frac, value: &Frac, coefficient: &Frac) -> Option<Frac>
    requires { coefficient.now.num ≢ pos 0 }
    ensures { MatchOption result (ShiftUnfit bound.now value.now coefficient.now) (λ f.
        IsShift bound.now value.now coefficient.now f) }
{
    match bound.sub(value) {
        Some(gap) => gap.div(coefficient),
        None => None,
    }
}
