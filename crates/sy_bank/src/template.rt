// Rules that give parts.
use std::rc::Rc;
use sy_grammar_base::Part;
use sy_terms::Theory;

/// A rule of a nonterminal that gives a part.
#[derive(Drop)]
pub struct Template<'a, T: Theory> {
    pub nonterminal: u32,
    pub number: u32,
    pub part: &'a Rc<Part<T>>,
}
