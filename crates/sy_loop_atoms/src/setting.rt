// The problem, and what its arguments and grammar offer to literals.
use std::alloc::Global;
use sy_grammar_base::Problem;
use sy_grammar_sizes::number_of;
use sy_loop_literals::Sum;
use sy_terms::{Sort, Theory, Want};

/// How many integers sums are compared with at most.
const MOST_CONSTANTS: usize = 24;

/// The problem in whose first function's grammar literals are, and up to which size.
#[derive(Drop)]
pub struct Setting<'a, T: Theory> {
    /// Where tables are allocated.
    pub alloc: Global,
    /// The problem.
    pub problem: &'a Problem<T>,
    /// The greatest size of a literal.
    pub bound: u32,
}

/// The arguments of the function, and numbers of the problem.
#[derive(Drop)]
pub(crate) struct Shape {
    /// The sorts of the arguments.
    pub sorts: Vec<Sort>,
    /// The integers of the problem's pool.
    pub pool: Vec<i128>,
    /// The integers that sums are compared with.
    pub constants: Vec<i128>,
    /// The sums of one and two arguments.
    pub sums: Vec<Sum>,
}

impl Shape {
    /// The arguments and numbers of the problem, and no sums.
    pub fn new<T: Theory>(setting: &Setting<T>) -> Result<Shape, Want> {
        let mut sorts = Vec::new(setting.alloc);
        if let Some(wanted) = setting.problem.wanted.get(0) {
            sorts.extend_from_slice(wanted.args.as_slice())?;
        }
        let pool = pool_of(setting)?;
        let constants = constants_of(setting.alloc, pool.as_slice())?;
        Ok(Shape {
            sorts,
            pool,
            constants,
            sums: Vec::new(setting.alloc),
        })
    }

    /// Whether both arguments are vectors of one width.
    pub fn are_vectors(&self, x: usize, y: usize) -> bool {
        match (self.sorts.get(x), self.sorts.get(y)) {
            (Some(Sort::Bits(first)), Some(Sort::Bits(second))) => *first == *second,
            _ => false,
        }
    }

    /// The sum less the constant.
    pub fn difference(&self, sum: usize, constant: usize) -> Option<Sum> {
        let number = *self.constants.get(constant)?;
        let found = self.sums.get(sum)?;
        Some(found.plus(number.saturating_neg()))
    }

    /// The integer of the pool; 0 where there is none.
    pub fn factor(&self, number: usize) -> i128 {
        match self.pool.get(number) {
            Some(factor) => *factor,
            None => 0,
        }
    }

    /// Adds a sum of integer arguments with these factors, where they are integers.
    pub fn add_sum(&mut self, parts: &[(usize, i128)]) -> Result<(), Want> {
        if let Some(sum) = Sum::of_integers(parts, self.sorts.as_slice()) {
            self.sums.push(sum)?;
        }
        Ok(())
    }
}

/// The integers of the problem's pool.
fn pool_of<T: Theory>(setting: &Setting<T>) -> Result<Vec<i128>, Want> {
    let mut pool = Vec::new(setting.alloc);
    for value in setting.problem.pool.as_slice() {
        if T::value_sort(value) == Sort::Int {
            pool.push(number_of::<T>(value))?;
        }
    }
    Ok(pool)
}

/// The integers that sums are compared with: 0, 1 and -1, those of the pool, their opposites, and their neighbours.
fn constants_of(alloc: Global, pool: &[i128]) -> Result<Vec<i128>, Want> {
    let mut constants = Vec::from_array(alloc, [0, 1, -1])?;
    for number in pool {
        add_constant(*number, &mut constants)?;
    }
    for number in pool {
        add_constant(number.saturating_neg(), &mut constants)?;
        add_constant(number.saturating_add(1), &mut constants)?;
        add_constant(number.saturating_sub(1), &mut constants)?;
    }
    Ok(constants)
}

/// Adds the integer where it is new and there is room.
fn add_constant(number: i128, constants: &mut Vec<i128>) -> Result<(), Want> {
    if constants.len() < MOST_CONSTANTS && !constants.contains(&number) {
        constants.push(number)?;
    }
    Ok(())
}
