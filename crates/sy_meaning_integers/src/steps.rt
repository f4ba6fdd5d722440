// The operators that are taken from the left over their arguments.
ghost use Rattle.std.specs.Prelude.{◌≡◌, ◌<◌, ◌∷◌, length};
ghost use Rattle.sy_terms.specs.Values.{Whole, whole, from_left};
ghost use Rattle.sy_terms.specs.Operators.{on_wholes};
ghost use Rattle.sy_terms.specs.Theories.{partials_fit, from_left_fits};
ghost use Rattle.sy_terms.specs.Denoted.{val_of, vals_of};
ghost use Rattle.sy_meaning_integers.specs.Found.{Found};

use sy_meaning_core::whole_sum;
use sy_terms::Value;

/// An operation on two whole numbers.
pub(crate) trait Step {
    ghost use Rattle.std.specs.Prelude.{ℤ};
    ghost use Rattle.sy_terms.specs.Values.{Whole};
    ghost use Rattle.sy_terms.specs.Theories.{fits_128};
    ghost use Rattle.sy_meaning_integers.specs.Found.{Found};

    /// The value, without bounds.
    ghost exact: { ℤ → ℤ → ℤ };

    /// The value; `None` exactly where it doesn't fit 128 bits.
    fn step(x: i128, y: i128) -> Option<i128>
        ensures { Found (fits_128 (exact x y)) (Whole (exact x y)) result };
}

/// Addition.
pub(crate) struct Plus;

/// Subtraction.
pub(crate) struct Minus;

/// Multiplication.
pub(crate) struct Times;

/// Division that leaves no negative remainder; 0 where the divisor is 0.
pub(crate) struct Quotient;

impl Step for Plus {
    ghost use Rattle.std.specs.Prelude.{◌+ℤ◌};

    ghost exact = { ◌+ℤ◌ };

    fn step(x: i128, y: i128) -> Option<i128> {
        whole_sum(x, y)
    }
}

impl Step for Minus {
    ghost use Rattle.std.specs.Prelude.{◌-ℤ◌};

    ghost exact = { ◌-ℤ◌ };

    fn step(x: i128, y: i128) -> Option<i128> {
        x.checked_sub(y)
    }
}

impl Step for Times {
    ghost use Rattle.std.specs.Prelude.{◌*ℤ◌};

    ghost exact = { ◌*ℤ◌ };

    fn step(x: i128, y: i128) -> Option<i128> {
        x.checked_mul(y)
    }
}

impl Step for Quotient {
    ghost use Rattle.sy_terms.specs.Integers as int;

    ghost exact = { int.whole_quotient };

    fn step(x: i128, y: i128) -> Option<i128> {
        if y == 0 {
            Some(0)
        } else {
            x.checked_div_euclid(y)
        }
    }
}

/// The whole number that the value is; 0 where it is a truth value.
pub(crate) fn whole(value: &Value<i128>) -> i128
    ensures { result ≡ whole (val_of Whole value.now) }
{
    match value {
        Value::Num(n) => *n,
        Value::Truth(_) => 0,
    }
}

/// The operation taken from the left over the first number and the rest; `None` exactly where a partial value doesn't
/// fit 128 bits.
fn fold<S: Step>(first: i128, rest: &[Value<i128>]) -> Option<i128>
    ensures { Found (partials_fit S.exact first (vals_of Whole rest.now))
        (from_left (on_wholes S.exact) (Whole first ∷ vals_of Whole rest.now)) result }
{
    let mut total = first;
    for value in rest {
        total = S::step(total, whole(value))?;
    }
    Some(total)
}

/// The operation taken from the left over two numbers or more; `None` exactly where a partial value doesn't fit 128
/// bits.
pub(crate) fn from_left<S: Step>(values: &[Value<i128>]) -> Option<i128>
    requires { 1 < length values.now }
    ensures { Found (from_left_fits S.exact (vals_of Whole values.now))
        (from_left (on_wholes S.exact) (vals_of Whole values.now)) result }
{
    match values.split_first() {
        Some((first, rest)) => fold::<S>(whole(first), rest),
        None => None,
    }
}
