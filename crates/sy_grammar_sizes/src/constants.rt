// Sizes of chosen constants.
ghost use Rattle.std.specs.Prelude.{◌≡◌, ◌≤◌, map};
ghost use Rattle.std.specs.List.{list_any};
ghost use Rattle.sy_terms.specs.Values.{same};
ghost use Rattle.sy_terms.specs.Theories.{whole_number};
ghost use Rattle.sy_terms.specs.Denoted.{val_of};
ghost use Rattle.sy_grammar_base.specs.Trees as spec;

use sy_terms::{Theory, Value, Values, same_value};

/// The size of a constant that a rule for all of a sort gave: 1 where it is a truth value, 0, 1 or in the pool, and
/// otherwise 1 more than the number of binary digits of its magnitude.
pub fn constant_size<T: Theory>(value: &Value<T::Num>, pool: &Values<T>) -> u32
    ensures { result ≡ spec.constant_size (map (val_of T.denotes) pool.now) (val_of T.denotes value.now) }
{
    if is_small::<T>(value) || is_in_pool::<T>(value, pool.as_slice()) {
        return 1;
    }
    digits(number_of::<T>(value).unsigned_abs()) + 1
}

/// The whole number that the value stands for, 0 for truth values.
pub fn number_of<T: Theory>(value: &Value<T::Num>) -> i128
    ensures { result ≡ whole_number (val_of T.denotes value.now) }
{
    match value {
        Value::Truth(_) => 0,
        Value::Num(number) => T::number(*number),
    }
}

/// Whether the value is true, false, 0 or 1.
fn is_small<T: Theory>(value: &Value<T::Num>) -> bool
    ensures { result ≡ spec.is_small (val_of T.denotes value.now) }
{
    let number = number_of::<T>(value);
    number == 0 || number == 1
}

/// Whether the value is one of these.
fn is_in_pool<T: Theory>(value: &Value<T::Num>, pool: &[Value<T::Num>]) -> bool
    ensures { result ≡ list_any (same (val_of T.denotes value.now)) (map (val_of T.denotes) pool.now) }
{
    for other in pool {
        if same_value::<T>(value, other) {
            return true;
        }
    }
    false
}

/// How many binary digits the number has, none where it is 0.
pub fn digits(number: u128) -> u32
    ensures is { result ≡ spec.digits number }
    ensures bounded { result ≤ 128 }
{
    128 - number.leading_zeros()
}
