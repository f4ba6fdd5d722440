// Combinations of kept terms that have wanted values. Which ones are named is a guess: whoever takes one proves of it
// what is to hold.
#![tactic(auto)]

mod filters;
mod guess;
mod operation;
mod point;
mod progress;
mod scan;
mod seconds;
mod words;

pub use guess::{Guess, Pool, Shape};
pub use scan::Scan;
