// The operators of SMT-LIB's theory Core on the values of any theory, and the numbers that bit vectors and whole
// numbers are made of.
#![tactic(auto)]

mod division;
mod equality;
mod number;
mod operators;
mod truths;
mod values;
mod wholes;
mod wrapped;

pub use division::{quotient, remainder, signed_modulus, signed_quotient, signed_remainder};
pub use number::Number;
pub use operators::{core_value, in_core};
pub use wholes::whole_sum;
pub use wrapped::{greatest, is_negative, lowest, negated, sum};
