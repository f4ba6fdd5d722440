// Judging the replies in a file: how a run that judges them may end.
#![tactic(auto)]

mod file;
mod job;

pub use file::judge_file;
