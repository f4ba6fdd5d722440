// Grammars: which are well formed, what they derive and how large it is, those of functions declared without one; and
// problems.
#![tactic(auto)]

mod build;
mod choice;
mod compare;
mod constants;
mod defaults_rules;
mod derivations;
mod fill;
mod fitting;
mod formed;
mod grammar;
mod integers;
mod linear;
mod note;
mod rows;
mod rules;
mod seen;
mod step;
mod vectors;
mod widths;

pub use choice::tree_rule;
pub use derivations::derive;
pub use formed::well_formed;
pub use grammar::default_grammar;
pub use sy_grammar_base::{
    Derivation, Derivations, Grammar, Non, Part, Parts, Problem, Rule, Wanted, candidates_fit,
};
pub use sy_grammar_sizes::{chain_closure, derivation_size, largest};
