// Conditional trees that serve a set of points.
#![tactic(auto)]

mod choice;
mod guide;
mod join_tree;
mod rows;

pub use choice::{Choice, Joined};
pub use guide::{Guide, Hint};
pub use join_tree::unify;
