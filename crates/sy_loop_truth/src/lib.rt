// Whether terms are true under bodies at assignments, and the tuples that these ask for; definitions of what a search
// knows.
#![tactic(auto)]

mod calls;
mod point;
mod rest;
mod truth;

pub use calls::{Adding, add_calls};
pub use point::point_of;
pub use rest::Rest;
pub use truth::{Truth, all_true, is_true, judge};
