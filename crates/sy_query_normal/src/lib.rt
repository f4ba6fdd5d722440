// Queries over bit vectors in which equal terms are written alike.
#![tactic(auto)]

mod chains;
mod choices;
mod itself;
mod normal;
mod order;
mod parts;
mod query;
mod sides;
mod sorts;
mod unordered;

pub use query::normal_query;
