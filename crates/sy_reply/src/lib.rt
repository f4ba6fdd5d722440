// The text of replies, of their lines, and of what replies state.
#![tactic(auto)]

mod end;
mod fail;
mod line;
mod refusal;
mod refused;
mod reply;
mod stated;
mod symbols;
mod terms;
mod text;

pub use end::ReplyEnd;
pub use fail::{fail_line, name_text};
pub use line::reply_refusal_text;
pub use refusal::{fault_name, position, put_cause, refusal_text};
pub use refused::{ReplyCause, ReplyRefused, reply_cause_number};
pub use reply::reply_text;
pub use stated::Stated;
pub use text::put;
