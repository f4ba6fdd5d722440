// Answering the problems of a file in order.
#![tactic(auto)]

mod file;
mod job;
mod printers;
mod problems;

pub use file::answer_file;
