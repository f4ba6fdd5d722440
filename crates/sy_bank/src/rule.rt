// Rules for all of a sort.
use sy_terms::Sort;

/// A rule of a nonterminal that gives every constant, or every argument, of a sort.
#[derive(Clone, Copy)]
pub struct LeafRule {
    pub nonterminal: u32,
    pub number: u32,
    pub sort: Sort,
}
