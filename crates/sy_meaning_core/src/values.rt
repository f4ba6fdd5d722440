// What a value says, and when two values are the same.
ghost use Rattle.std.specs.Prelude.{◌≡◌};
ghost use Rattle.sy_terms.specs.Values.{truth, same};
ghost use Rattle.sy_terms.specs.Denoted.{val_of};

use crate::number::Number;
use sy_terms::Value;

/// Whether the value is the truth value true.
pub(crate) fn is_true<N: Number>(v: &Value<N>) -> bool
    ensures { result ≡ truth (val_of N.denotes v.now) }
{
    match v {
        Value::Truth(truth) => *truth,
        Value::Num(_) => false,
    }
}

/// Whether both values are the same.
pub(crate) fn is_same<N: Number>(a: &Value<N>, b: &Value<N>) -> bool
    ensures { result ≡ same (val_of N.denotes a.now) (val_of N.denotes b.now) }
{
    match (a, b) {
        (Value::Truth(a), Value::Truth(b)) => *a == *b,
        (Value::Num(m), Value::Num(n)) => m.is_same(*n),
        _ => false,
    }
}
