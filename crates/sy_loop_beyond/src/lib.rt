// The search for solutions alone where a bank is full or a number left the 128 bits: kept terms, and what rules give of
// them, also over further banks.
#![tactic(auto)]

mod again;
mod banks;
mod search;

pub use search::{solve_anew, solve_beyond};
