// Points with what is wanted there.
use crate::words::lowest;
use std::alloc::Global;
use sy_terms::Want;

/// A point: the value that is wanted there, and of each pool the values of its kept terms.
#[derive(Drop)]
pub(crate) struct Point {
    pub(crate) wanted: u64,
    columns: Vec<Vec<u64>>,
    /// How many values are the wanted one.
    agreeing: usize,
}

impl Point {
    /// The point of these values.
    pub(crate) fn new(alloc: Global, wanted: i128, columns: &[Vec<i128>]) -> Result<Point, Want> {
        let wanted = lowest(wanted);
        let mut copies = Vec::with_capacity(alloc, columns.len())?;
        let mut agreeing = 0usize;
        for column in columns {
            let copy = lowest_of(alloc, column.as_slice())?;
            agreeing = agreeing.saturating_add(count_of(copy.as_slice(), wanted));
            copies.push(copy)?;
        }
        Ok(Point {
            wanted,
            columns: copies,
            agreeing,
        })
    }

    /// The values of the pool's kept terms; none where they weren't given.
    pub(crate) fn column(&self, pool: usize) -> &[u64] {
        match self.columns.get(pool) {
            Some(column) => column.as_slice(),
            None => &[],
        }
    }

    /// The value of a kept term of the pool, where it was given.
    pub(crate) fn value(&self, pool: usize, place: usize) -> Option<u64> {
        let value = self.column(pool).get(place)?;
        Some(*value)
    }
}

/// The lowest 64 bits of each.
fn lowest_of(alloc: Global, numbers: &[i128]) -> Result<Vec<u64>, Want> {
    let mut found = Vec::with_capacity(alloc, numbers.len())?;
    for number in numbers {
        found.push(lowest(*number))?;
    }
    Ok(found)
}

/// How many of the numbers are this one.
fn count_of(numbers: &[u64], number: u64) -> usize {
    let mut count = 0usize;
    for other in numbers {
        if *other == number {
            count = count.saturating_add(1);
        }
    }
    count
}

/// Puts the point among the others, behind those with which as few values agree, since such tell most.
pub(crate) fn insert(points: &mut Vec<Point>, point: Point) -> Result<(), Want> {
    let mut place = 0;
    for (other, found) in points.iter().enumerate() {
        if found.agreeing <= point.agreeing {
            place = other + 1;
        }
    }
    points.insert(place.min(points.len()), point)?;
    Ok(())
}
