// Comparisons of each value with the one after it.
ghost use Rattle.std.specs.Prelude.{◌≡◌, ◌∷◌};
ghost use Rattle.sy_terms.specs.Values.{Whole, Truth, whole, neighbours};
ghost use Rattle.sy_terms.specs.Operators.{in_order};
ghost use Rattle.sy_terms.specs.Denoted.{vals_of};

use crate::steps::whole;
use sy_terms::Value;

/// A comparison of two whole numbers.
pub(crate) trait Relation {
    ghost use Rattle.std.specs.Prelude.{ℤ, Bool};

    /// Whether the first number stands in the relation to the second.
    ghost related: { ℤ → ℤ → Bool };

    /// The same, computed.
    fn holds(x: i128, y: i128) -> bool
        ensures { result ≡ related x y };
}

/// At most.
pub(crate) struct Le;

/// Less than.
pub(crate) struct Lt;

/// At least.
pub(crate) struct Ge;

/// Greater than.
pub(crate) struct Gt;

impl Relation for Le {
    ghost use Rattle.std.specs.Prelude.{int_le};

    ghost related = { int_le };

    fn holds(x: i128, y: i128) -> bool {
        x <= y
    }
}

impl Relation for Lt {
    ghost use Rattle.std.specs.Prelude.{int_lt};

    ghost related = { int_lt };

    fn holds(x: i128, y: i128) -> bool {
        x < y
    }
}

impl Relation for Ge {
    ghost use Rattle.std.specs.Prelude.{int_le};

    ghost related = { λ x y. int_le y x };

    fn holds(x: i128, y: i128) -> bool {
        x >= y
    }
}

impl Relation for Gt {
    ghost use Rattle.std.specs.Prelude.{int_lt};

    ghost related = { λ x y. int_lt y x };

    fn holds(x: i128, y: i128) -> bool {
        x > y
    }
}

/// Whether the first number stands in the relation to the first of the rest, and each of these to the one after it.
fn follow<R: Relation>(first: i128, rest: &[Value<i128>]) -> bool
    ensures { result ≡ neighbours (λ x y. R.related (whole x) (whole y)) (Whole first ∷ vals_of Whole rest.now) }
{
    let mut last = first;
    for value in rest {
        let next = whole(value);
        if !R::holds(last, next) {
            return false;
        }
        last = next;
    }
    true
}

/// Whether each number stands in the relation to the one after it.
pub(crate) fn in_order<R: Relation>(values: &[Value<i128>]) -> bool
    ensures { Truth result ≡ in_order R.related (vals_of Whole values.now) }
{
    match values.split_first() {
        Some((first, rest)) => follow::<R>(whole(first), rest),
        None => true,
    }
}
