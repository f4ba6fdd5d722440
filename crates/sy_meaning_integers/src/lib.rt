// The theory of the logic LIA: whole numbers that a machine keeps in 128 bits.
#![tactic(auto)]

mod order;
mod steps;
mod theory;
mod unary;

pub use theory::IntTheory;
