// The operators of one or two arguments.
ghost use Rattle.std.specs.Prelude.{◌≡◌, slice_index_or, false, neg_ℤ};
ghost use Rattle.sy_terms.specs.Values.{Whole, Truth, whole};
ghost use Rattle.sy_terms.specs.Operators.{op_value};
ghost use Rattle.sy_terms.specs.Theories.{fits, fits_128};
ghost use Rattle.sy_terms.specs.Denoted.{vals_of, IsSorted};
ghost use Rattle.sy_terms.specs.Integers as int;
ghost use Rattle.sy_meaning_integers.specs.Found.{Found};

use crate::steps::whole;
use sy_terms::{Op, Value};

/// The whole number at a place of the list; 0 where there is none.
fn number_at(values: &[Value<i128>], place: usize) -> i128
    ensures { result ≡ whole (slice_index_or (vals_of Whole values.now) place (Truth false)) }
{
    match values.get(place) {
        Some(value) => whole(value),
        None => 0,
    }
}

/// The negated number; `None` exactly where it doesn't fit 128 bits.
fn negate(x: i128) -> Option<i128>
    ensures { Found (fits_128 (neg_ℤ x)) (Whole (neg_ℤ x)) result }
{
    x.checked_neg()
}

/// The absolute value; `None` exactly where it doesn't fit 128 bits.
fn magnitude(x: i128) -> Option<i128>
    ensures { Found (fits_128 (int.absolute x)) (Whole (int.absolute x)) result }
{
    x.checked_abs()
}

/// The negated number of a list of one; `None` exactly where it doesn't fit 128 bits.
pub(crate) fn negated(values: &[Value<i128>]) -> Option<i128>
    requires { IsSorted Op.Neg (vals_of Whole values.now) }
    ensures { Found (fits Op.Neg (vals_of Whole values.now)) (op_value Op.Neg (vals_of Whole values.now)) result }
{
    negate(number_at(values, 0))
}

/// The absolute value of the number of a list of one; `None` exactly where it doesn't fit 128 bits.
pub(crate) fn absolute(values: &[Value<i128>]) -> Option<i128>
    requires { IsSorted Op.Abs (vals_of Whole values.now) }
    ensures { Found (fits Op.Abs (vals_of Whole values.now)) (op_value Op.Abs (vals_of Whole values.now)) result }
{
    magnitude(number_at(values, 0))
}

/// The remainder from 0 to |y| - 1 of a division by y; x where y is 0.
fn remainder(x: i128, y: i128) -> i128
    ensures { result ≡ int.modulus x y }
{
    if y == 0 {
        x
    } else if y == -1 {
        0
    } else {
        x.rem_euclid(y)
    }
}

/// The remainder of a division of the first of two numbers by the second; the first where the second is 0.
pub(crate) fn modulus(values: &[Value<i128>]) -> i128
    requires { IsSorted Op.Mod (vals_of Whole values.now) }
    ensures { Whole result ≡ op_value Op.Mod (vals_of Whole values.now) }
{
    remainder(number_at(values, 0), number_at(values, 1))
}
