// What stays the same while terms are found.
use crate::level::Level;
use std::alloc::Global;
use sy_grammar_base::Grammar;
use sy_terms::{Defs, Theory, Values};

/// The grammar, the definitions, the pool, the points, the kept terms of lesser sizes, and how many terms may be kept.
#[derive(Drop)]
pub struct Task<'a, T: Theory> {
    pub alloc: Global,
    pub grammar: &'a Grammar<T>,
    pub defs: &'a Defs<T>,
    pub pool: &'a Values<T>,
    pub points: &'a [Values<T>],
    pub levels: &'a [Level<T>],
    pub size: u32,
    pub cap: usize,
}
