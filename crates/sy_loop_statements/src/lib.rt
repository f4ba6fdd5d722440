// What constraints state of the one function to be found, as tokens; and what that says of its values at assignments.
// All is a guide to a search: what is found by it is tested and proved afterwards.
#![tactic(auto)]

mod conditions;
mod opening;
mod statements;
mod values;

pub use opening::{Opening, opened};
pub use statements::Statements;
pub use values::{constant_of, value_of};
