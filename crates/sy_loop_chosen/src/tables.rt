// What constraints want, and kept terms as columns.
use crate::values::word_of;
use std::alloc::Global;
use sy_bank_level::{Bank, Kept};
use sy_grammar_base::Grammar;
use sy_loop_bodies::{Wish, point_of};
use sy_loop_choices::{Column, Pool};
use sy_terms::{Sort, Theory, Values, Want};

/// Tuples of arguments, and the value that is wanted at each.
#[derive(Drop)]
pub(crate) struct Wanted<T: Theory> {
    pub(crate) tuples: Vec<Values<T>>,
    pub(crate) words: Vec<u64>,
}

/// The wishes, with their values as numbers.
pub(crate) fn wanted_of<T: Theory>(alloc: Global, wishes: Vec<Wish<T>>) -> Result<Wanted<T>, Want> {
    let mut tuples = Vec::with_capacity(alloc, wishes.len())?;
    let mut words = Vec::with_capacity(alloc, wishes.len())?;
    for wish in wishes {
        words.push(word_of::<T>(&wish.value))?;
        tuples.push(wish.tuple)?;
    }
    Ok(Wanted { tuples, words })
}

/// What is wanted at each of the points; `None` where nothing is at one.
pub(crate) fn wanted_at<T: Theory>(
    alloc: Global,
    wanted: &Wanted<T>,
    points: &[Values<T>],
) -> Result<Option<Vec<u64>>, Want> {
    let mut words = Vec::with_capacity(alloc, points.len())?;
    for point in points {
        let Some(place) = point_of::<T>(wanted.tuples.as_slice(), point.as_slice()) else {
            return Ok(None);
        };
        let Some(word) = wanted.words.get(place) else {
            return Ok(None);
        };
        words.push(*word)?;
    }
    Ok(Some(words))
}

/// The bank's kept terms as columns, for each nonterminal by size and then in the order in which they were found.
pub(crate) fn pools_of<T: Theory>(
    alloc: Global,
    grammar: &Grammar<T>,
    bank: &Bank<T>,
) -> Result<Vec<Pool>, Want> {
    let mut pools = Vec::new(alloc);
    let mut number = 0u32;
    for non in grammar.nons().as_slice() {
        let columns = columns_of(alloc, bank, number)?;
        pools.push(Pool {
            bits: bits_of(non.sort),
            columns,
        })?;
        number = number.saturating_add(1);
    }
    Ok(pools)
}

/// The size below that of the largest kept term: up to it all terms are kept, as far as their values differ.
pub(crate) fn complete_size(pools: &[Pool]) -> u32 {
    let mut largest = 0u32;
    for pool in pools {
        if let Some(column) = pool.columns.last() {
            largest = largest.max(column.size);
        }
    }
    largest.saturating_sub(1)
}

/// How many bits a value of the sort has, of whole numbers the lowest 64.
fn bits_of(sort: Sort) -> u32 {
    match sort {
        Sort::Bool => 1,
        Sort::Int => 64,
        Sort::Bits(width) => u32::from(width),
    }
}

/// The nonterminal's kept terms as columns.
fn columns_of<T: Theory>(
    alloc: Global,
    bank: &Bank<T>,
    nonterminal: u32,
) -> Result<Vec<Column>, Want> {
    let mut columns = Vec::new(alloc);
    for size in 0..u64::from(bank.upto()) + 1 {
        for kept in bank.kept(nonterminal, size as u32) {
            let column = column_of(alloc, kept)?;
            columns.push(column)?;
        }
    }
    Ok(columns)
}

/// The kept term as a column.
fn column_of<T: Theory>(alloc: Global, kept: &Kept<T>) -> Result<Column, Want> {
    let mut values = Vec::with_capacity(alloc, kept.row.len())?;
    for value in kept.row.as_slice() {
        values.push(word_of::<T>(value))?;
    }
    Ok(Column {
        size: kept.size,
        values,
    })
}
