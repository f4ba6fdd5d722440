// Bit vectors: the words of a machine, and the theory of terms over them.
#![tactic(auto)]

mod arithmetic;
mod bitwise;
mod division;
mod operators;
mod orders;
mod pairs;
mod shifts;
mod structure;
mod theory;
mod word;

pub use theory::BvTheory;
pub use word::Word;
