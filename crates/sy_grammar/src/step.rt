// One step of a derivation.
use sy_terms::{Theory, Value};

/// A rule by its number, with the numbers of the steps that fill its occurrences, or the constant or the
/// argument that it gives.
#[derive(Drop)]
pub enum Step<T: Theory> {
    Node(u32, Vec<usize>),
    Constant(u32, Value<T::Num>),
    Variable(u32, u32),
}
