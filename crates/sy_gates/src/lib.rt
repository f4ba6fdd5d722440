// Circuits of gates over truth values, and the words that are built of them.
#![tactic(auto)]

mod bitwise;
mod circuit;
mod compare;
mod encode;
mod gate;
mod masks;
mod product;
mod quotient;
mod shift;
mod signed;
mod table;
mod wires;
mod word;

pub use bitwise::Joint;
pub use circuit::Circuit;
pub use compare::Order;
pub use gate::{Added, Bit, Gate};
pub use quotient::Division;
pub use signed::top;
pub use wires::{
    constant, extended, filled, joined, moved_down, moved_up, part, repeated, rotated_down,
    rotated_up,
};
pub use word::{Total, inverted, zeros};
