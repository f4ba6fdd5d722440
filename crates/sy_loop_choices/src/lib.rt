// Bodies that choose between kept terms, and bodies below known operations, from values at points. Which one is named
// is a guess: whoever takes it proves of it what is to hold.
#![tactic(auto)]

mod bits;
mod bodies;
mod choosers;
mod columns;
mod draws;
mod further;
mod gathered;
mod layers;
mod pairs;
mod plan;
mod rows;
mod search;
mod stages;
mod tables;
mod tree;
mod trials;
mod wanted;
mod writer;

pub use bodies::below;
pub use columns::{Column, Pool, Rules, Shape, Task};
pub use plan::{Node, Plan};
pub use rows::MOST_POINTS;
pub use stages::choose;
