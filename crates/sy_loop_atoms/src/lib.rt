// What a function of sort Bool may be made of: comparisons of its arguments as literals, with their truths at points.
// All are guides to a search: what is made of them is tested and proved afterwards.
#![tactic(auto)]

mod adding;
mod atoms;
mod families;
mod goals;
mod hull;
mod kept;
mod program;
mod setting;
mod terms;

pub use atoms::Atoms;
pub use setting::Setting;
pub use sy_loop_literals::Traits;
pub use sy_loop_statements::Statements;
