// The list type of the public surface.
#![tactic(auto)]

mod seq;

pub use seq::{Seq, Want};
