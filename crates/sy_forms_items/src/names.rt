// What names stand for.
use sy_seq::Seq;
use sy_terms::{Fun, Sort};
use sy_text_items::Name;

/// Where a term stands, which says what it may name.
#[derive(Clone, Copy, Debug, PartialEq, Eq)]
pub enum Role {
    /// The body of a definition: arguments and definitions.
    Body,
    /// A rule of a grammar: nonterminals, arguments and definitions, and no `let`.
    Grammar,
    /// An assumption: variables and definitions.
    Assumption,
    /// A constraint: variables, definitions and functions to be found.
    Constraint,
}

/// What a declared name stands for.
#[derive(Drop)]
pub enum Entity {
    /// The variable of this number, from 0, and its sort.
    Variable(u32, Sort),
    /// A function, the sorts of its arguments, and the sort of its value.
    Function(Fun, Seq<Sort>, Sort),
}

/// A name with a sort: an argument, a `let` name or a nonterminal.
#[derive(Drop)]
pub struct Named {
    pub name: Name,
    pub sort: Sort,
}
