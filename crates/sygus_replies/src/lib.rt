// The replies to the problems of a file, and what is written of them: their texts on the output, with a line of each
// proof that is to be shown, and a line of each fail.
#![tactic(auto)]

mod prints;
mod text;
mod write;

pub use prints::Prints;
pub use text::{answer_line, answer_text};
pub use write::{WriteFault, last, write_both};
