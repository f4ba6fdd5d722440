// What items of text say where a term is read: symbols, numerals and indices, names in scope, and terms as they are
// written.
#![tactic(auto)]

mod convert;
mod copies;
mod environment;
mod fault;
mod locals;
mod measure;
mod names;
mod operators;
mod parts;
mod phrase;
mod ruling;
mod sorts;
mod table;
mod written;

pub use copies::copied;
pub use environment::{Environment, Sense, place_among, sense_of};
pub use fault::{Fault, ReadEnd};
pub use locals::Locals;
pub use measure::{Measures, is_small};
pub use names::{Entity, Named, Role};
pub use operators::{
    are_small, at_count, indexed_operator, is_indexed, is_reserved, operator_named,
};
pub use parts::{Indices, Rest, indexed_name, is, is_symbol, numeral, place_of, symbol, symbol_in};
pub use phrase::{
    Phrase, Phrases, Typed, binding, invocation, literal, local, nonterminal, operation, position,
};
pub use ruling::Ruling;
pub use sorts::{is_width, read_sort, same_sorts};
pub use table::Names;
pub use written::is_neg;
