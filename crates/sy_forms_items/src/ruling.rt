// Rules as they are read.
use crate::phrase::Phrase;
use sy_terms::{Sort, Theory};

/// A rule as it is read.
#[derive(Drop)]
pub enum Ruling<T: Theory> {
    /// A grammar term.
    Template(Phrase<T>),
    /// `(Constant s)`: every constant of the sort.
    EachConstant(Sort),
    /// `(Variable s)`: every argument of the sort.
    EachVariable(Sort),
}
