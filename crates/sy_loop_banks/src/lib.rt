// The banks of all functions to be found: built or carried on up to a size, and what they dropped.
#![tactic(auto)]

mod bank;
mod banks;
mod dropped;

pub use banks::{Banks, take_banks};
pub use dropped::dropped_term;
