// Rows of rules' parts, computed from the rows of what stands for their nonterminals.
#![tactic(auto)]

mod apply;
mod call;
mod ends;
mod evaluated;
mod lent;
mod rows;

pub use ends::RowEnd;
pub use evaluated::term_row;
pub use lent::Row;
pub use rows::part_row;
