// Signals of a circuit, which stand for values, and the circuits of the operators on them.
#![tactic(auto)]

mod alike;
mod equality;
mod operators;
mod signal;
mod truths;
mod vectors;

pub use operators::applied;
pub use signal::Signal;
