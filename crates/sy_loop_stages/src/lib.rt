// The search in stages: an early one with few kept terms, the whole one, and what lies beyond them and after them.
#![tactic(auto)]

mod beyond;
mod causes;
mod own;
mod search;
mod stage;
mod stages;

pub use stages::synthesise_beyond;
