// The answers of the simplex method.

use crate::tableau::Tableau;
use sy_frac::Frac;
use sy_seq::Seq;

/// The steps of a run: pairs of the leaving and the entering variable.
#[derive(Drop)]
pub struct Run {
    pub steps: Seq<(u32, u32)>,
}

/// What is known of the forms `e >= 0`.
#[derive(Drop)]
pub enum Feasible {
    /// A point that meets every form: the corner at which the run ends.
    Point(Seq<Frac>),
    /// Multipliers of the forms, none of them negative, that combine them to a negative constant.
    Conflict(Seq<Frac>),
    /// The run has taken all its steps, and is at neither end.
    Pivots(Run),
    /// An operation after these steps doesn't fit.
    Range(Run),
}

/// An answer, and for a point the tableau at which the run ends.
#[derive(Drop)]
pub struct Ended {
    pub answer: Feasible,
    pub last: Option<Tableau>,
}
