// Pointwise problems, and the values of the function to be found on which their constraints rest.
#![tactic(auto)]

mod asks;
mod key;
mod places;
mod posed;
mod rest;
mod rests;
mod shape;
mod table;
mod valued;
mod writing;

pub use posed::{Posed, pointwise, pose};
pub use rest::{Rested, rest_of};
pub use rests::{Resting, rest_all};
pub use shape::{Shape, same_numbers};
pub use table::Table;
pub use writing::written;
