// Proofs in text checked without a solver: resolution logs, with a query's clauses as text, and refutation trees.
#![tactic(auto)]

mod checker;
mod circuits;
mod clauses;
mod trees_checker;
mod trees_clauses;

pub use checker::LogChecker;
pub use clauses::LogClauses;
pub use trees_checker::TreeChecker;
pub use trees_clauses::NoClauses;
