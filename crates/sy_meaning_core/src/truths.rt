// The operators on truth values.
ghost use Rattle.std.specs.Prelude.{◌≡◌};
ghost use Rattle.std.specs.List.{list_all, list_any};
ghost use Rattle.sy_terms.specs.Values.{Truth, truth};
ghost use Rattle.sy_terms.specs.Denoted.{vals_of, IsSorted};
ghost use Rattle.sy_terms.specs.Operators.{implied, op_value};

use crate::number::Number;
use crate::values::is_true;
use sy_terms::{Op, Value};

/// Whether each value is true.
pub(crate) fn all_true<N: Number>(values: &[Value<N>]) -> bool
    ensures { result ≡ list_all truth (vals_of N.denotes values.now) }
{
    values.iter().all(|v| is_true(v))
}

/// Whether some value is true.
pub(crate) fn any_true<N: Number>(values: &[Value<N>]) -> bool
    ensures { result ≡ list_any truth (vals_of N.denotes values.now) }
{
    values.iter().any(|v| is_true(v))
}

/// Whether an odd number of the truth values is true, which is `xor` taken from the left.
pub(crate) fn exclusive<N: Number>(values: &[Value<N>]) -> bool
    requires { IsSorted Op.Xor (vals_of N.denotes values.now) }
    ensures { Truth result ≡ op_value Op.Xor (vals_of N.denotes values.now) }
{
    let mut odd = false;
    for v in values {
        odd = odd != is_true(v);
    }
    odd
}

/// Whether the last value is true or one before it is false, which is `=>` taken from the right.
pub(crate) fn implied<N: Number>(values: &[Value<N>]) -> bool
    ensures { result ≡ implied (vals_of N.denotes values.now) }
{
    match values.split_last() {
        Some((conclusion, premises)) => is_true(conclusion) || !all_true(premises),
        None => true,
    }
}
