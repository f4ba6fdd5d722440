// Grammars, derivations and problems, and their laws.
#![tactic(auto)]

mod derivation;
mod grammar;
mod laws;
mod part;
mod problem;

pub use derivation::{Derivation, Derivations};
pub use grammar::{Grammar, Non, Rule};
pub use laws::candidates_fit;
pub use part::{Part, Parts};
pub use problem::{Problem, Wanted};
