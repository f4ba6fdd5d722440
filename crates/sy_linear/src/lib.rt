// The checker of refutation trees.
#![tactic(auto)]

mod checker;
mod combination;
mod exact;
mod nodes;
mod size;

pub use checker::{check_tree, is_countable};
pub use nodes::{branch, contradicts, cut, split, suits};
pub use sy_linear_known::{
    CheckEnd, Fact, Form, FormEnd, Known, Path, Test, Tree, is_numbered, known,
};
