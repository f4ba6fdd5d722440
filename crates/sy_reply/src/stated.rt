// What a reply states.
use sy_terms::{Bodies, Theory};
use sy_text_items::Sexp;

/// What a reply to a `check-synth` states.
#[derive(Drop)]
pub enum Stated<T: Theory> {
    /// No definitions: `fail` or `infeasible`.
    Nothing,
    /// A body for each function to be found, in order of declaration, and the item of a proof where one is read.
    Bodies(Bodies<T>, Option<Sexp>),
}
