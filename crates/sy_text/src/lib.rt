// Commands as text: the lists and atoms of SMT-LIB 2.6, read and written.
#![tactic(auto)]

mod fault;
mod items;
mod laws;
mod lexicon;
mod lines;
mod reader;
mod writer;

pub use fault::TextEnd;
pub use items::next_command;
pub use lexicon::{is_digit, is_symbol_byte};
pub use lines::line_column;
pub use sy_text_items::{Atom, Name, Place, Sexp, Sexps, TextFault};
pub use writer::{write_numeral, write_sexp, write_symbol, write_vector};
