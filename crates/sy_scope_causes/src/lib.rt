// Why a file is refused, and the names that a file declares.
#![tactic(auto)]

mod cause;
mod titles;

pub use cause::{Cause, Refused, cause_number};
pub use titles::{Title, Titles};
