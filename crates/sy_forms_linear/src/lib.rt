// Which applications are linear, and which nonterminals derive constants alone.
#![tactic(auto)]

mod divisors;
mod factors;
mod flags;

pub use divisors::is_linear;
pub use flags::{constant_groups, divisor_groups, has_sort, item_behind};
