// Paths whose facts suit the variables of a query, and that the query's open tests keep them so.
#![tactic(auto)]

mod law;

pub use law::{open_tests_suit, paths_grow};
