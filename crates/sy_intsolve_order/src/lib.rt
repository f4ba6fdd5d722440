// The choice of the test to split on: a guess by the query's shape and by what a path leaves open, tested before it is
// taken.
#![tactic(auto)]

mod arithmetic;
mod asking;
mod choice;
mod guide;
mod hash;
mod marks;
mod splitting;
mod tables;
mod truths;
mod walk;
mod zones;

pub use guide::Guide;
pub use splitting::can_split;
