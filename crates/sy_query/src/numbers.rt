// Numbers at which terms that differ often do.
use crate::places::place_at;
use std::alloc::Global;
use sy_terms::{Sort, Want};

/// How many numbers each sort has apart from a query's constants.
const OWN: usize = 10;

/// How many single bits a vector has behind the constants.
const SINGLE_BITS: usize = 3;

/// How many numbers are tried where a query has these constants: a sort's own, each constant with its neighbours, and
/// single bits where a variable is a vector.
pub(crate) fn count(vars: &[Sort], constants: &[i128]) -> usize {
    let before = constants.len().saturating_mul(3).saturating_add(OWN);
    if has_vector(vars) {
        before.saturating_add(SINGLE_BITS)
    } else {
        before
    }
}

/// Whether a variable is a vector.
pub(crate) fn has_vector(vars: &[Sort]) -> bool {
    vars.iter().any(|sort| matches!(sort, Sort::Bits(_)))
}

/// The numbers of these places for variables of these sorts.
pub(crate) fn numbers_at(
    alloc: Global,
    vars: &[Sort],
    constants: &[i128],
    places: &[usize],
) -> Result<Vec<i128>, Want> {
    let mut numbers = Vec::with_capacity(alloc, vars.len())?;
    for sort in vars {
        let place = place_at(places, numbers.len());
        numbers.push(number_at(*sort, constants, place))?;
    }
    Ok(numbers)
}

/// The number that stands there; 0 past the end.
pub(crate) fn number_in(numbers: &[i128], index: usize) -> i128 {
    match numbers.get(index) {
        Some(number) => *number,
        None => 0,
    }
}

/// The same numbers with this one at the place.
pub(crate) fn with_number(
    alloc: Global,
    numbers: &[i128],
    place: usize,
    number: i128,
) -> Result<Vec<i128>, Want> {
    let mut changed = Vec::with_capacity(alloc, numbers.len())?;
    for (index, old) in numbers.iter().enumerate() {
        changed.push(if index == place { number } else { *old })?;
    }
    Ok(changed)
}

/// The number of this place for a sort. The constants and their neighbours come after the sort's own numbers, and
/// single bits of vectors after these.
fn number_at(sort: Sort, constants: &[i128], place: usize) -> i128 {
    if place < OWN {
        return own(sort, place);
    }
    let after = place - OWN;
    match constants.get(after / 3) {
        Some(constant) => within(sort, constant.wrapping_add((after % 3) as i128 - 1)),
        None => single_bit(
            sort,
            after.saturating_sub(constants.len().saturating_mul(3)),
        ),
    }
}

/// A bit in the middle of a vector, or of one of its halves; 0 for other sorts.
fn single_bit(sort: Sort, place: usize) -> i128 {
    let Sort::Bits(width) = sort else {
        return 0;
    };
    let quarter = width.min(64) / 4;
    match place {
        0 => 1 << (2 * quarter),
        1 => 1 << quarter,
        _ => 1 << (3 * quarter),
    }
}

/// A number of the sort's own. Those at which most terms differ stand in front: integers that lie far apart, and
/// vectors without a pattern. Then come small integers, and a vector's ends, its middle and single bits.
fn own(sort: Sort, place: usize) -> i128 {
    match sort {
        Sort::Bool => place as i128,
        Sort::Int => of_integers(place),
        Sort::Bits(width) => within(sort, of_vector(1 << width.min(64), place)),
    }
}

/// An integer. Those that lie far apart come first: sums and multiples of few of them are equal, so one model tells
/// many terms apart.
fn of_integers(place: usize) -> i128 {
    match place {
        0 => 7,
        1 => 64,
        2 => -37,
        3 => 1000,
        4 => 0,
        5 => 1,
        6 => -1,
        7 => 13,
        8 => -250,
        _ => 2,
    }
}

/// A number of vectors, modulo `end`, a power of two. The least signed number comes first, at which nested calls ask
/// for few tuples. Two without a pattern follow, at which terms that differ mostly do: one is positive and ends in
/// ones, the other is negative and ends in zeros, at widths of 8, 16, 32 and 64.
fn of_vector(end: i128, place: usize) -> i128 {
    match place {
        0 => end / 2,
        1 => 0x506f_8a09_5c62_6927,
        2 => 0xe35c_15a5_9adb_8cdc,
        3 => -1,
        4 => 0,
        5 => (end / 2).saturating_sub(1),
        6 => 1,
        7 => 2,
        // alternating bits
        8 => end / 3,
        _ => (end / 3).saturating_mul(2),
    }
}

/// The number, modulo how many numbers a sort of vectors has.
fn within(sort: Sort, number: i128) -> i128 {
    match sort {
        Sort::Bool | Sort::Int => number,
        Sort::Bits(width) => number.rem_euclid(1 << width.min(64)),
    }
}
