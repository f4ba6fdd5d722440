// The reader of files.
#![tactic(auto)]

mod beginning;
mod commands;
mod constraints;
mod definitions;
mod file;
mod front;
mod functions;
mod job;
mod laws;

pub use beginning::reply_start;
pub use commands::step;
pub use file::read_file;
pub use front::{files_are_fronts, read_front};
pub use functions::Ruled;
pub use job::Job;
pub use laws::{files_fit, files_titled, steps_keep_sound};
pub use sy_scope_causes::{Cause, Refused, Title, Titles, cause_number};
pub use sy_scope_declared::{
    Asked, Condition, Context, Definition, Sought, check_feature, read_request,
};
pub use sy_scope_ends::ScopeEnd;
