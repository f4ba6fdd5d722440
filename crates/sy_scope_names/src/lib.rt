// Commands by their names and parts, what the commands so far declare and ask for, and the values that a file writes.
#![tactic(auto)]

mod commands;
mod context;
mod convert;
mod list;
mod parts;
mod pool;
mod predeclared;
mod request;

pub use commands::{Command, command_named};
pub use context::{has_room, new_name, new_sort_name};
pub use convert::{Group, nonterminals};
pub use list::{Naming, read_named, sorts_of};
pub use parts::request_of;
pub use pool::Pool;
pub use predeclared::read_predeclared;
pub use request::{Listed, Request, Rulebook, Spelled, list_in, spelling};
