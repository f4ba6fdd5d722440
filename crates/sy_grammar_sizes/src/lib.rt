// Sizes of derivations, the largest of them, and chain rules of grammars.
#![tactic(auto)]

mod chains;
mod chains_constants;
mod constants;
mod greatest;
mod leaves;
mod sizes;
mod table;

pub use chains::{chain_closure, chain_of};
pub use constants::{constant_size, digits, number_of};
pub use greatest::largest;
pub use sizes::derivation_size;
