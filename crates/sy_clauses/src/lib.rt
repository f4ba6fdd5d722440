// Clauses, resolution logs, their checker, and logs without the lines that the last one does not need.
#![tactic(auto)]

mod checker;
mod marking;
mod marks;
mod numbering;
mod trimming;

pub use checker::{advance, check, clause_at};
pub use marks::Marks;
use sy_seq::Seq;
pub use trimming::trimmed;

/// A literal: the variable itself, or its negation.
#[derive(Clone, Copy, Drop)]
pub struct Lit {
    pub var: u32,
    pub positive: bool,
}

/// Clauses over the variables below `vars`, each a disjunction of its literals.
#[derive(Drop)]
pub struct Cnf {
    pub vars: u32,
    pub clauses: Seq<Seq<Lit>>,
}

/// A resolution on `var` with the clause of number `with`.
#[derive(Clone, Copy, Drop)]
pub struct Step {
    pub var: u32,
    pub with: u32,
}

/// A derived clause: the clause of number `first`, resolved by each step in turn.
#[derive(Drop)]
pub struct Line {
    pub first: u32,
    pub steps: Seq<Step>,
}

/// Derived clauses in order. The clauses of the `Cnf` have the numbers from 0 on, and each line's has the next.
#[derive(Drop)]
pub struct Log {
    pub lines: Seq<Line>,
}
