// The answers of a solver.
use sy_terms::{Theory, Values};

/// A solver's answer to a query.
#[derive(Drop)]
pub enum Verdict<T: Theory, P: Drop, S: Drop> {
    /// No assignment satisfies the query: a proof of this.
    Never(P),
    /// An assignment that satisfies the query: a value of each variable, in order.
    Model(Values<T>),
    /// A budget ran out: what shows it.
    Spent(S),
}
