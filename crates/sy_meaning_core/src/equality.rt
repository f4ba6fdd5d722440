// Equality of values.
ghost use Rattle.std.specs.Prelude.{◌≡◌, not};
ghost use Rattle.std.specs.List.{list_all};
ghost use Rattle.sy_terms.specs.Values.{same, neighbours, all_pairs, to_all};
ghost use Rattle.sy_terms.specs.Denoted.{vals_of, val_of};

use crate::number::Number;
use crate::values::is_same;
use sy_terms::Value;

/// Whether the value is the same as each of the others.
fn agrees<N: Number>(value: &Value<N>, others: &[Value<N>]) -> bool
    ensures { result ≡ list_all (same (val_of N.denotes value.now)) (vals_of N.denotes others.now) }
{
    others.iter().all(|v| is_same(value, v))
}

/// Whether each value is the same as the one after it, and so all are.
pub(crate) fn all_same<N: Number>(values: &[Value<N>]) -> bool
    ensures { result ≡ neighbours same (vals_of N.denotes values.now) }
{
    match values.split_first() {
        Some((first, rest)) => agrees(first, rest),
        None => true,
    }
}

/// Whether the value is the same as none of the others.
fn differs<N: Number>(value: &Value<N>, others: &[Value<N>]) -> bool
    ensures { result ≡ to_all (λ x y. not (same x y)) (val_of N.denotes value.now) (vals_of N.denotes others.now) }
{
    others.iter().all(|v| !is_same(value, v))
}

/// Whether no two values are the same.
pub(crate) fn all_distinct<N: Number>(values: &[Value<N>]) -> bool
    ensures { result ≡ all_pairs (λ x y. not (same x y)) (vals_of N.denotes values.now) }
{
    let mut left = values;
    while let Some((first, rest)) = left.split_first() {
        if !differs(first, rest) {
            return false;
        }
        left = rest;
    }
    true
}
