// What the solver's answers carry.
use sy_clauses::{Cnf, Log};

/// A proof that no assignment satisfies a query: clauses that say what the query says, and a log that refutes them.
#[derive(Drop)]
pub struct BvProof {
    pub cnf: Cnf,
    pub log: Log,
}

/// What is left of a search whose budget ran out.
#[derive(Drop)]
pub enum BvSpent {
    /// Clauses that say what the query says, and a log of as many learned clauses as the limit allows.
    Clauses(Cnf, Log),
}
