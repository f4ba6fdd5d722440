// Formulas that are learned from labels of points, tried as the one body: the loop of learning, asking and telling.
#![tactic(auto)]

mod asking;
mod equalities;
mod grouping;
mod learned;
mod learning;
mod telling;
mod ways;
mod writing;

pub use learned::solve_learned;
