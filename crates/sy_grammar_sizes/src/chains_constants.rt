// The largest sizes of constants.
ghost use Rattle.std.specs.Prelude.{◌≡◌, ℕ, map, nat_eq, IfOk, Some};
ghost use Rattle.std.specs.List.{list_any};
ghost use Rattle.std.specs.HashSet.{contains};
ghost use Rattle.sy_terms.specs.Denoted.{val_of};
ghost use Rattle.sy_grammar_sizes.specs.Constants as spec;
ghost use Rattle.sy_grammar_sizes.specs.Constants.{IsGreatest, IsConstantSize, IsTop};

use crate::constants::{digits, number_of};
use std::alloc::{AllocError, Global};
use std::collections::HashSet;
use sy_terms::{Sort, Theory, Value, same_sort};

/// The largest size of a constant that a rule for all of the sort gives; `None` exactly where it gives none.
pub fn largest_constant<T: Theory>(
    alloc: Global,
    sort: Sort,
    pool: &[Value<T::Num>],
) -> Result<Option<u32>, AllocError>
    ensures { IfOk result (IsGreatest (IsConstantSize (map (val_of T.denotes) pool.now) sort)) }
{
    match sort {
        Sort::Bool => Ok(Some(1)),
        Sort::Int => {
            let size = largest_up_to::<T>(alloc, sort, (1u128 << 127) - 1, pool)?;
            Ok(Some(size))
        }
        Sort::Bits(width) => {
            if width < 1 || width > 64 {
                Ok(None)
            } else {
                let size = largest_up_to::<T>(alloc, sort, (1u128 << width) - 1, pool)?;
                Ok(Some(size))
            }
        }
    }
}

/// The largest size of a constant of the sort, whose greatest magnitude is `top`.
fn largest_up_to<T: Theory>(
    alloc: Global,
    sort: Sort,
    top: u128,
    pool: &[Value<T::Num>],
) -> Result<u32, AllocError>
    requires { IsTop sort top }
    ensures { IfOk result (λ size. IsGreatest (IsConstantSize (map (val_of T.denotes) pool.now) sort) (Some size)) }
{
    let positive = magnitudes::<T>(alloc, pool, sort, false)?;
    let negative = magnitudes::<T>(alloc, pool, sort, true)?;
    let mut magnitude = top;
    while magnitude > 0 && are_one(sort, magnitude, &positive, &negative) {
        magnitude -= 1;
    }
    if magnitude == 0 {
        Ok(1)
    } else {
        Ok(digits(magnitude) + 1)
    }
}

/// Whether each constant of the sort with this magnitude, above 0, counts 1, where the pool has values of the sort and
/// of each sign with these magnitudes.
fn are_one(sort: Sort, magnitude: u128, positive: &HashSet<u128>, negative: &HashSet<u128>) -> bool
    ensures { result ≡ spec.are_held (contains nat_eq positive.now) (contains nat_eq negative.now) sort magnitude }
{
    match sort {
        Sort::Bool => true,
        Sort::Int => {
            negative.contains(&magnitude) && (magnitude == 1 || positive.contains(&magnitude))
        }
        Sort::Bits(_) => magnitude == 1 || positive.contains(&magnitude),
    }
}

/// The magnitudes of the pool's values of this sort and sign.
fn magnitudes<T: Theory>(
    alloc: Global,
    pool: &[Value<T::Num>],
    sort: Sort,
    negative: bool,
) -> Result<HashSet<u128>, AllocError>
    ensures { IfOk result (λ found. (magnitude : ℕ) → contains nat_eq found magnitude ≡
        list_any (spec.is_at sort magnitude negative) (map (val_of T.denotes) pool.now)) }
{
    let mut found: HashSet<u128> = HashSet::new(alloc);
    for value in pool {
        if is_signed::<T>(value, sort, negative) {
            found.insert(number_of::<T>(value).unsigned_abs())?;
        }
    }
    Ok(found)
}

/// Whether the value has this sort and sign.
fn is_signed<T: Theory>(value: &Value<T::Num>, sort: Sort, negative: bool) -> bool
    ensures { result ≡ spec.has_sign sort negative (val_of T.denotes value.now) }
{
    let below = number_of::<T>(value) < 0;
    same_sort(&sort, &T::value_sort(value)) && below == negative
}
