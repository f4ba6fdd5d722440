// The words of the command line, and what they ask for.
#![tactic(auto)]

mod law;
mod modes;
mod numbers;
mod options;
mod settings;
mod words;

pub use law::words_have_one_reading;
pub use modes::tries_trees;
pub use numbers::{limit_of, number};
pub use settings::{FileName, Mode, Settings, WordFault};
pub use words::read_words;
