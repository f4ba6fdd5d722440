// A solver of clauses that learns by resolution.
#![tactic(auto)]

mod analysis;
mod law;
mod order;
mod propagation;
mod shortening;
mod solver;
mod store;
mod trail;
mod watches;

pub use law::learned_clauses_differ;
pub use order::{Plan, Start, USUAL_PLAN};
pub use solver::{Solved, solve, solve_by};
