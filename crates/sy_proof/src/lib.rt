// Proofs in text: resolution logs and refutation trees, written and read.
#![tactic(auto)]

mod clauses;
mod logs;
mod nodes;
mod numbers;
mod tree_text;
mod trees;
mod wholes;
mod words;

pub use clauses::write_clauses;
pub use logs::{read_log, write_log};
pub use tree_text::write_tree;
pub use trees::read_tree;
