// Mode `drill`: files that are made from numbers, and the answering of the problem of one.
#![tactic(auto)]

mod count;
mod drill_answers;
mod drills;
mod file;
mod generator;
mod laws;
mod line;

pub use drills::drill;
pub use file::drill_file;
pub use generator::{Example, examples};
pub use laws::files_ask;
pub use line::{DrillEnd, drill_line};
