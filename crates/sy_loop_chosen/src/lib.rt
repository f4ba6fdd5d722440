// Bodies that choose between kept terms: which rules choose, and what of, is found by trial of their values over
// columns.
#![tactic(auto)]

mod chosen;
mod odds;
mod plans;
mod rules;
mod tables;
mod values;

pub use chosen::solve_chosen;
pub use odds::are_at_odds;
