// Integer queries written without division, remainder and absolute value.
#![tactic(auto)]

mod applied;
mod divisions;
mod divisor;
mod keys;
mod lowering;
mod names;
mod pairs;
mod progress;
mod same;
mod terms;
mod walk;

pub use divisions::has_divisions;
pub use lowering::lower;
