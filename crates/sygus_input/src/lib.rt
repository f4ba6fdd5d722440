// The input of a run: what the words of the command line ask for, with the file under their name.
#![tactic(auto)]

mod input;
mod reading;

pub use input::{Input, InputFault};
pub use reading::read_input;
