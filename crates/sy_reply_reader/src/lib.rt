// Replies that others give to the problems of a file: which are accepted, and what they state.
#![tactic(auto)]

mod definitions;
mod part;
mod replies;
mod signature;
mod slots;

pub use replies::read_reply;
