// Which candidates are within the bound, honest histories of counterexamples, and right outcomes: definitions and laws.
#![tactic(auto)]

mod law;
mod name;
mod outcome;
mod reach;
mod trees_law;

pub use law::{
    agreeing_bodies_are_refuted, assumptions_ask_nothing, honest_assignments_differ,
    members_are_merged, members_are_refuted, nothing_refuted_solves, open_numbers_stay_open,
    sizes_are_done, what_is_refuted_stays_so,
};
pub use name::fail_name;
pub use outcome::{FailCause, LoopRange, Outcome};
pub use reach::Reach;
pub use trees_law::{bounds_are_sizes, trees_are_merged};
