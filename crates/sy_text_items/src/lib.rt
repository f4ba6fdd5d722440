// Items of text: the lists and atoms of SMT-LIB 2.6, each with its place, and what can be wrong with text.
#![tactic(auto)]

mod atom;
mod fault;
mod sexp;

pub use atom::{Atom, Name, Place};
pub use fault::TextFault;
pub use sexp::{Sexp, Sexps};
