// Assignments that look random, at which terms that differ mostly do.
ghost use Rattle.std.specs.Prelude.{◌≡◌, true, IfOk, IfSome};
ghost use Rattle.sy_terms.specs.Denoted.{val_of, vals_of};
ghost use Rattle.sy_terms.specs.Theories.{sort_of_value, valid};
ghost use Rattle.sy_grammar_base.specs.Solving.{AreValues};

use std::alloc::Global;
use sy_terms::{Seq, Sort, Theory, Value, Values, Want};

/// Values of these sorts that look random, the same ones for a seed: of a vector each of its numbers, of whole numbers
/// one from -50 to 50. `None` where a sort has no such number in the theory. `Want` comes where memory runs out, and
/// nowhere else.
pub fn mixed_assignment<T: Theory>(
    alloc: Global,
    vars: &[Sort],
    seed: u64,
) -> Result<Option<Values<T>>, Want>
    ensures { IfOk result (λ found. IfSome found (λ values. AreValues vars.now (vals_of T.denotes values))) }
{
    let mut values = Seq::new(alloc);
    for sort in vars {
        let number = number_at(seed, values.len());
        let Some(value) = value_of::<T>(*sort, number) else {
            return Ok(None);
        };
        values.push(value)?;
    }
    Ok(Some(values))
}

/// The number of a place in a row without a pattern, another row for each seed.
fn number_at(seed: u64, place: usize) -> u64 {
    let mut state = seed.wrapping_mul(1_000_003).wrapping_add(place as u64);
    for _ in 0..3 {
        state = (state ^ (state >> 32))
            .wrapping_mul(6_364_136_223_846_793_005)
            .wrapping_add(1_442_695_040_888_963_407);
    }
    state ^ (state >> 32)
}

/// The value of the sort that is made of the number; `None` where there is none.
fn value_of<T: Theory>(sort: Sort, number: u64) -> Option<Value<T::Num>>
    ensures sort { IfSome result (λ value. sort_of_value (val_of T.denotes value) ≡ sort) }
    ensures valid { IfSome result (λ value. valid (val_of T.denotes value) ≡ true) }
{
    match sort {
        Sort::Bool => Some(Value::Truth(number % 2 == 1)),
        Sort::Int | Sort::Bits(_) => {
            let number = T::of_number(sort, within(sort, number))?;
            Some(Value::Num(number))
        }
    }
}

/// The number brought among those that are taken of the sort.
fn within(sort: Sort, number: u64) -> i128 {
    match sort {
        Sort::Bool => 0,
        Sort::Int => i128::from(number % 101) - 50,
        Sort::Bits(width) => i128::from(number).rem_euclid(1 << width.min(64)),
    }
}
