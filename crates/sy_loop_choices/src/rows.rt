// Sets of points, as numbers: the first point is the lowest bit.
/// How many points are looked at. What stands behind them is left out.
pub const MOST_POINTS: usize = 128;

/// All points, of which there are so many.
pub(crate) fn all_points(count: usize) -> u128 {
    if count < MOST_POINTS {
        u128::MAX ^ (u128::MAX << count)
    } else {
        u128::MAX
    }
}

/// The points at which the columns agree.
pub(crate) fn agreement(one: &[u64], other: &[u64]) -> u128 {
    let mut row = 0u128;
    let mut point = 1u128;
    for (x, y) in one.iter().zip(other) {
        if *x == *y {
            row |= point;
        }
        point <<= 1;
    }
    row
}

/// The points at which the column has this value.
pub(crate) fn points_of(column: &[u64], value: u64) -> u128 {
    let mut row = 0u128;
    let mut point = 1u128;
    for x in column {
        if *x == value {
            row |= point;
        }
        point <<= 1;
    }
    row
}

/// The points at which the column has this bit.
pub(crate) fn bit_points(column: &[u64], bit: u32) -> u128 {
    let mut row = 0u128;
    let mut point = 1u128;
    for x in column {
        if x.checked_shr(bit).unwrap_or(0) & 1 == 1 {
            row |= point;
        }
        point <<= 1;
    }
    row
}
