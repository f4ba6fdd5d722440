// The search of each mode, the answers of a run, and how it ended.
#![tactic(auto)]

mod answers;
mod search;

pub use answers::{Answers, Ended, unanswered};
pub use search::{Solved, sought, status_of};
