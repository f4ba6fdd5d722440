// Kept terms and dropped terms.
use crate::grown::Grown;
use std::rc::Rc;
use sy_terms::{Term, Theory, Values};

/// A kept term with its derivation from its nonterminal, the size of that derivation, and its values at the points.
#[derive(Drop)]
pub struct Kept<T: Theory> {
    pub grown: Rc<Grown<T>>,
    pub size: u32,
    pub row: Values<T>,
}

/// A term that isn't computable at the point of this number.
#[derive(Drop)]
pub struct Dropped<T: Theory> {
    pub term: Term<T>,
    pub point: u32,
}
