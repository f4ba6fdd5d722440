// The judging of candidates: at stored assignments, and where they meet the problem there, by a solver.
#![tactic(auto)]

mod asks;
mod copies;
mod due;
mod observe;
mod place;
mod refute;
mod step;
mod suspects;
mod tell;
mod trial;

pub use copies::copied_bodies;
pub use due::{decide_due, decide_query};
pub use refute::are_refuted;
pub use step::{End, Known, Stop, try_candidate};
pub use suspects::Suspects;
