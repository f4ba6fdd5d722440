// Formulas learned from labels of points: conjunctions of clauses of literals that are true where they have to be, and
// false where they have to be. Nothing here knows what points and literals are.
#![tactic(auto)]

mod attempt;
mod class;
mod clause;
mod formula;
mod labels;
mod learner;
mod literal;
mod row;
mod score;
mod search;

pub use class::Class;
pub use labels::Label;
pub use learner::Learner;
pub use literal::Traits;
