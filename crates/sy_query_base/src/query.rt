// Queries.
use sy_terms::{Seq, Sort, Term, Theory};

/// A question for a solver: the sorts of the variables, and a body of sort `Bool` over them, which calls no
/// function. An assignment satisfies the query where it makes the body true.
#[derive(Drop)]
pub struct Query<T: Theory> {
    pub vars: Seq<Sort>,
    pub body: Term<T>,
}
