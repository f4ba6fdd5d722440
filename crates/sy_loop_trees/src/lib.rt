// Conditional trees over kept terms: where conditions are true, and the terms that trees are.
#![tactic(auto)]

mod condition;
mod kept;
mod tree;

pub use condition::condition_of;
pub use kept::truth_rows;
pub use tree::tree_term;
