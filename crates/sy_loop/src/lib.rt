// The search for bodies that solve a problem.
#![tactic(auto)]

mod copies;
mod join;
mod join_trees;
mod kept;
mod level;
mod outcome;
mod plan;
mod round;
mod search;
mod served;
mod trees;

pub use join_trees::try_trees;
pub use level::try_level;
pub use outcome::ended;
pub use plan::{Plan, plan_of};
pub use search::{synthesise, synthesise_least};
pub use sy_loop_spec::{FailCause, LoopRange, Outcome, fail_name};
