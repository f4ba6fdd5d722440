// Where a search is, and what a turn of it gives.
use crate::way::Way;
use sy_frac::Frac;
use sy_intsolve_cuts::IntSpent;
use sy_linear_known::Tree;
use sy_meaning_integers::IntTheory;
use sy_query_base::Verdict;
use sy_seq::Seq;

/// What stands at the end of the way.
#[derive(Drop)]
pub(crate) enum State {
    /// A leaf that isn't looked at yet, with a point of its path where one is kept.
    Open(Way, Option<Seq<Frac>>),
    /// A tree that refutes the query under the way's path.
    Closed(Way, Tree),
}

/// What a turn gives.
#[derive(Drop)]
pub(crate) enum Turn {
    /// The search goes on.
    On(State),
    /// The search has ended.
    Over(Verdict<IntTheory, Tree, IntSpent>),
}
