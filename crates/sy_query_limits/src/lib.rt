// The limits of a search, and the names of what ends one.
#![tactic(auto)]

/// The limits of a search, each with its least and greatest value in brackets.
#[derive(Clone, Copy, Debug, PartialEq, Eq)]
pub struct Limits {
    /// The sizes of the bodies of all functions together, and of each part of a body that chooses (1 to 64).
    pub size: u32,
    /// The stored assignments (1 to 1,024).
    pub rounds: u32,
    /// The points of one function (1 to 1,024).
    pub points: u32,
    /// The kept terms of one function (1 to 40,000).
    pub bank: u32,
    /// The weight of one query (1 to 1,000,000).
    pub weight: u32,
    /// The learned clauses of one query (1 to 400,000).
    pub clauses: u32,
    /// The inner nodes of the tree of one query (1 to 8,000).
    pub nodes: u32,
    /// The pivots at one leaf of that tree (1 to 100,000).
    pub pivots: u32,
}

/// The name of what ended a search without a solution: the size bound, or a budget.
#[derive(Clone, Copy, Debug, PartialEq, Eq)]
pub enum FailName {
    /// No solution lies within the size bound.
    Size,
    Rounds,
    Points,
    Bank,
    Weight,
    Clauses,
    Nodes,
    Pivots,
    /// A number left the 128 bits of the solver's numbers.
    Range,
}
