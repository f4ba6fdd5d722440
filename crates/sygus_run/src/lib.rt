// The run of the program: words, a file, and what it answers.
#![tactic(auto)]

mod program;

pub use program::run;
pub use sygus_answers::{Answers, Ended};
pub use sygus_words::{FileName, Mode, Settings, WordFault, read_words};
