// Merged banks: the kept terms of a grammar up to a size, at most one for each row of values at the points.
#![tactic(auto)]

mod bank;
mod building;
mod chained;
mod choosing;
mod copy;
mod fill;
mod growing;
mod leaf;
mod leaves_offering;
mod levels;
mod magnitudes;
mod measure;
mod numbers;
mod offering;
mod passing;
mod positions;
mod rule;
mod rules;
mod template;

pub use bank::BankEnd;
pub use building::{build, grow};
pub use choosing::choose;
pub use copy::copied_part;
pub use fill::{chosen_part, grown};
pub use measure::{left_of, places};
pub use numbers::constants;
pub use offering::offer;
pub use passing::pass_chains;
pub use positions::variables;
pub use rule::LeafRule;
pub use sy_bank_level::{Bank, Dropped, Kept};
pub use template::Template;
