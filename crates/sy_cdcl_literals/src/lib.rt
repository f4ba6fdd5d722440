// Entries of an assignment that make marked literals false, and what becomes of a clause by the value of one literal.
#![tactic(auto)]

mod entries;
mod outcomes;

pub use entries::{Entry, falsifies, is_last_hit, some_falsifies};
pub use outcomes::{Outcome, Pair, Truth, outcome_of};
