// The reader of written grammars, what the commands of a file do, and how bodies are read.
#![tactic(auto)]

mod agreeing;
mod bodies;
mod group;
mod groups;
mod measures;
mod rulebook;
mod surroundings;

pub use agreeing::measures_agree;
pub use bodies::{read_body, read_body_in};
pub use rulebook::{Written, read_rulebook};
pub use surroundings::Surroundings;
