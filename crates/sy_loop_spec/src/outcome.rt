// The answers of a search.
use sy_bank_level::{Bank, Kept};
use sy_points::Stored;
use sy_terms::{Bodies, Seq, Term, Theory, Values};

/// What left the 128 bits.
#[derive(Drop)]
pub enum LoopRange<T: Theory> {
    /// A term that the grammar of the function of this number derives, at a tuple of arguments.
    Member(u32, Term<T>, Values<T>),
    /// An assumption or a constraint under bodies, at an assignment.
    Checked(Bodies<T>, Values<T>),
}

/// Why a search ended without a solution, with what shows it. The pairs are the assignments that refuted candidates.
#[derive(Drop)]
pub enum FailCause<T: Theory, S: Drop> {
    /// No bodies within the greatest size solve the problem (by the sum of their sizes, and in modes `solve` and
    /// `drill` by the parts of bodies that choose), and the largest sizes of the grammars don't sum to at most it.
    Size,
    /// There are as many pairs as there may be.
    Rounds(Stored<T>),
    /// The function of this number has as many tuples as it may, and these bodies ask for one more at this assignment.
    Points(Stored<T>, u32, Bodies<T>, Values<T>, Seq<Values<T>>),
    /// The bank of the function of this number is full, and this nonterminal has one more term.
    Bank(Stored<T>, u32, Bank<T>, u32, Kept<T>),
    /// The query of these bodies weighs more than it may.
    Weight(Stored<T>, Bodies<T>),
    /// A budget of the solver ran out on the query of these bodies.
    Decide(Stored<T>, Bodies<T>, S),
    /// A number left the 128 bits.
    Range(Stored<T>, LoopRange<T>),
}

/// The answer of a search.
#[derive(Drop)]
pub enum Outcome<T: Theory, P: Drop, S: Drop> {
    /// A body for each function to be found, and the proof that they solve the problem.
    Found(Bodies<T>, P),
    /// No bodies at all are members of the grammars and solve the problem; the largest sizes of the grammars sum to at
    /// most the greatest size.
    Infeasible,
    Fail(FailCause<T, S>),
}
