// Sums that are 0 at all rows.
use crate::sums::{Sum, WIDTH, common};
use crate::vectors::width_of;
use std::alloc::Global;
use sy_terms::{Sort, Want};

/// The greatest magnitude of a number of a row.
const MOST_ENTRY: u128 = 1 << 62;

/// The greatest multiple of a row in a solution.
const MOST_NUMBER: u128 = 1_000_000_000;

/// A row of a system of equations, and the column in which it alone has a number.
#[derive(Clone, Copy)]
struct Row {
    sum: Sum,
    lead: usize,
}

/// At most so many sums of integer arguments that are 0 at all rows, the shortest first, with coefficients of at most
/// this magnitude.
pub fn equalities_at(
    alloc: Global,
    rows: &[Sum],
    sorts: &[Sort],
    greatest: u128,
    most: usize,
) -> Result<Vec<Sum>, Want> {
    let mut system = Vec::new(alloc);
    reduce(rows, &mut system)?;
    let mut sums = Vec::new(alloc);
    solutions(system.as_slice(), sorts, &mut sums)?;
    combine(&mut sums)?;
    let mut found = Vec::new(alloc);
    for _ in 0..most {
        if let Some(sum) = take_shortest(&mut sums, greatest) {
            found.push(sum)?;
        }
    }
    Ok(found)
}

/// Takes out the shortest of the sums, if one is short enough.
fn take_shortest(sums: &mut Vec<Sum>, greatest: u128) -> Option<Sum> {
    let mut best = None;
    let mut least = u128::MAX;
    for (place, sum) in sums.iter().enumerate() {
        let length = length_of(sum, greatest);
        if length < least {
            least = length;
            best = Some(place);
        }
    }
    let place = best?;
    let found = *sums.get(place)?;
    if let Some(sum) = sums.get_mut(place) {
        *sum = Sum::constant(0);
    }
    Some(found)
}

/// Makes rows of the system of those, so that each has a column in which it alone has a number. What grows too large is
/// left out.
fn reduce(rows: &[Sum], system: &mut Vec<Row>) -> Result<(), Want> {
    for row in rows {
        if let Some(sum) = rest_of(row, system.as_slice()) {
            if let Some(lead) = lead_of(&sum) {
                clear_column(system, &sum, lead);
                system.push(Row { sum, lead })?;
            }
        }
    }
    Ok(())
}

/// What is left of the row without numbers in the columns of the system's; `None` where numbers grow too large.
fn rest_of(row: &Sum, system: &[Row]) -> Option<Sum> {
    let mut rest = *row;
    for other in system {
        rest = without(&rest, &other.sum, other.lead)?;
    }
    Some(rest)
}

/// Takes the column out of the system's rows by the sum, where numbers don't grow too large.
fn clear_column(system: &mut Vec<Row>, sum: &Sum, column: usize) {
    for row in system.iter_mut() {
        if let Some(less) = without(&row.sum, sum, column) {
            row.sum = less;
        }
    }
}

/// The last column with a number but the constants', or that one.
fn lead_of(sum: &Sum) -> Option<usize> {
    let mut lead = None;
    for (column, number) in sum.numbers.iter().enumerate() {
        if *number != 0 && (column < WIDTH || lead.is_none()) {
            lead = Some(column);
        }
    }
    lead
}

/// A multiple of the sum less one of the other, in which the column has 0; `None` where numbers grow too large.
fn without(sum: &Sum, other: &Sum, column: usize) -> Option<Sum> {
    let own = sum.at(column);
    if own == 0 {
        return Some(*sum);
    }
    let left = Sum::constant(0)
        .with(sum, other.at(column))
        .with(other, own.saturating_neg());
    for number in &left.numbers {
        if number.unsigned_abs() > MOST_ENTRY {
            return None;
        }
    }
    Some(left.reduced())
}

/// Sums that are 0 at all rows of the system: one for each integer argument, and the constant, that no row has for its
/// own.
fn solutions(system: &[Row], sorts: &[Sort], found: &mut Vec<Sum>) -> Result<(), Want> {
    for column in 0..17usize {
        let is_open = column == WIDTH || sorts.get(column) == Some(&Sort::Int);
        let is_led = system.iter().any(|row| row.lead == column);
        if is_open && !is_led {
            if let Some(sum) = solution(system, column) {
                found.push(sum)?;
            }
        }
    }
    Ok(())
}

/// The sum with a number in the open column and in those of the rows that it needs.
fn solution(system: &[Row], column: usize) -> Option<Sum> {
    let own = multiple_of(system, column)?;
    let mut sum = Sum::constant(0);
    sum.set(column, own);
    for row in system {
        let product = row.sum.at(column).checked_mul(own)?;
        let quotient = product.checked_div(row.sum.at(row.lead))?;
        sum.set(row.lead, quotient.saturating_neg());
    }
    Some(sum.reduced())
}

/// The least number for the open column with which those of the rows are integers; `None` where it is too large.
fn multiple_of(system: &[Row], column: usize) -> Option<i128> {
    let mut multiple = 1u128;
    for row in system {
        let open = row.sum.at(column).unsigned_abs();
        let lead = row.sum.at(row.lead).unsigned_abs();
        let need = lead.checked_div(common(lead, open))?;
        let factor = need.checked_div(common(need, multiple))?;
        multiple = multiple.checked_mul(factor)?;
        if multiple > MOST_NUMBER {
            return None;
        }
    }
    i128::try_from(multiple).ok()
}

/// Adds the sums and differences of two of the sums.
fn combine(sums: &mut Vec<Sum>) -> Result<(), Want> {
    let count = sums.len();
    for first in 0..count {
        for second in 0..first {
            for factor in [1, -1] {
                let sum = combined(sums.as_slice(), first, second, factor);
                sums.push(sum)?;
            }
        }
    }
    Ok(())
}

/// The first of two of the sums and a multiple of the second, with numbers as small as can be.
fn combined(sums: &[Sum], first: usize, second: usize, factor: i128) -> Sum {
    let mut sum = Sum::constant(0);
    if let Some(found) = sums.get(first) {
        sum = *found;
    }
    if let Some(found) = sums.get(second) {
        sum = sum.with(found, factor);
    }
    sum.reduced()
}

/// How long the equality of the sum with 0 is: by how many numbers it has, and then by their magnitudes. The greatest
/// of all where it has no coefficient, or one that is larger than this.
fn length_of(sum: &Sum, greatest: u128) -> u128 {
    let mut length = if sum.numbers[WIDTH] == 0 {
        0u128
    } else {
        1 << 90
    };
    for number in sum.numbers.iter().take(WIDTH) {
        let magnitude = number.unsigned_abs();
        if magnitude > greatest {
            return u128::MAX;
        }
        if magnitude != 0 {
            length = length.saturating_add(1 << 90).saturating_add(magnitude);
        }
    }
    if width_of(sum) == 0 {
        u128::MAX
    } else {
        length
    }
}
