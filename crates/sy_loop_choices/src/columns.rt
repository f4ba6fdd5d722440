// Kept terms as columns of values, and rules over them.
use std::alloc::Global;
use sy_seq::Want;

/// A kept term: its size, and its value at each point. A vector is the number of its bits, a truth value 0 or 1, a
/// whole number its lowest 64 bits.
#[derive(Drop)]
pub struct Column {
    pub size: u32,
    pub values: Vec<u64>,
}

/// A nonterminal: how many bits its values have, and its kept terms by ascending size.
#[derive(Drop)]
pub struct Pool {
    pub bits: u32,
    pub columns: Vec<Column>,
}

/// A rule of a nonterminal, what it adds to the sizes of its parts, and the nonterminal of each part from left to
/// right.
#[derive(Drop)]
pub struct Shape {
    pub pool: u32,
    pub rule: u32,
    pub size: u32,
    pub operands: Vec<u32>,
}

/// What is wanted of the start symbol, whose pool is the first.
#[derive(Drop)]
pub struct Task {
    /// One for each nonterminal.
    pub pools: Vec<Pool>,
    pub shapes: Vec<Shape>,
    /// The wanted value at each point.
    pub wanted: Vec<u64>,
    /// The size up to which all terms are kept, as far as their values differ.
    pub complete: u32,
}

/// The values of rules over columns.
pub trait Rules {
    /// The values of the shape's rule where its parts, from left to right, have these values: one for each point.
    /// `None` where that isn't known. `Want` comes where memory runs out, and nowhere else.
    fn values(
        &self,
        alloc: Global,
        shape: usize,
        parts: &[&[u64]],
    ) -> Result<Option<Vec<u64>>, Want>;
}

impl Task {
    /// The kept terms of the pool; none where there is no such pool.
    pub(crate) fn columns(&self, pool: u32) -> &[Column] {
        match self.pools.get(pool as usize) {
            Some(pool) => pool.columns.as_slice(),
            None => &[],
        }
    }

    /// The values of the kept term; none where there is no such term.
    pub(crate) fn values(&self, pool: u32, place: usize) -> &[u64] {
        match self.columns(pool).get(place) {
            Some(column) => column.values.as_slice(),
            None => &[],
        }
    }

    /// The size of the kept term; 0 where there is no such term.
    pub(crate) fn size(&self, pool: u32, place: usize) -> u32 {
        match self.columns(pool).get(place) {
            Some(column) => column.size,
            None => 0,
        }
    }

    /// The place of this number in the pool, from the first one again behind the last.
    pub(crate) fn place(&self, pool: u32, number: usize) -> usize {
        number.checked_rem(self.columns(pool).len()).unwrap_or(0)
    }

    /// The greatest value of the pool.
    pub(crate) fn greatest(&self, pool: u32) -> u64 {
        match self.pools.get(pool as usize) {
            Some(pool) if pool.bits < 64 => u64::MAX ^ (u64::MAX << pool.bits),
            _ => u64::MAX,
        }
    }

    /// The pools of the shape's parts; none where there is no such shape.
    pub(crate) fn operands(&self, shape: usize) -> &[u32] {
        match self.shapes.get(shape) {
            Some(shape) => shape.operands.as_slice(),
            None => &[],
        }
    }

    /// What the shape adds to the sizes of its parts.
    pub(crate) fn added(&self, shape: usize) -> u32 {
        match self.shapes.get(shape) {
            Some(shape) => shape.size,
            None => 0,
        }
    }
}
