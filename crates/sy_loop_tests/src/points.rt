// Points of one value.
ghost use Rattle.std.specs.Prelude.{◌≡◌, ◌∷◌, [], true, map, IfSome};
ghost use Rattle.sy_terms.specs.Denoted.{val_of, vals_of};
ghost use Rattle.sy_terms.specs.Theories.{valid, sort_of_value};
ghost use Rattle.sy_bank.specs.Rows.{ArePointsOf};

use crate::rows::one;
use std::alloc::Global;
use std::process::Abort;
use sy_terms::{Seq, Sort, Theory, Value, Values};

/// The value of the sort that is the number of this text.
pub fn value<T: Theory>(sort: Sort, text: &str) -> Option<Value<T::Num>>
    ensures valid { IfSome result (λ v. valid (val_of T.denotes v) ≡ true) }
    ensures sort { IfSome result (λ v. sort_of_value (val_of T.denotes v) ≡ sort) }
{
    let number: i128 = text.parse().ok()?;
    let number = T::of_number(sort, number)?;
    Some(Value::Num(number))
}

/// A point for each of the numbers between spaces, up to the first that isn't of the sort.
pub fn points<T: Theory>(rt: &impl Abort, alloc: Global, sort: Sort, text: &str) -> Seq<Values<T>>
    ensures { ArePointsOf (sort ∷ []) (map (vals_of T.denotes) result) }
{
    let mut points = Seq::new(alloc);
    for word in text.split(' ') {
        let Some(value) = value::<T>(sort, word) else {
            return points;
        };
        points.push(one(rt, alloc, value)).expect(rt, word);
    }
    points
}
