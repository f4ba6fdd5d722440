// Where a search begins, and what it claims where it ends, from what shows it: a solution, that nothing is one, what
// left the 128 bits, or that no round is left.
#![tactic(auto)]

mod begin;
mod outcome;
mod sizes;

pub use begin::first_size;
pub use outcome::{exhausted, found, left_range, unbegun};
