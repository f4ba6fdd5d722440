// What is found of a candidate.
use sy_terms::{Theory, Values};

/// What is found of the bodies of a problem's functions: the first of these cases that applies, in the order
/// `NotMember`, `Heavy`, and then what the solver says.
#[derive(Drop)]
pub enum Checked<T: Theory, P: Drop, S: Drop> {
    /// The bodies are members of their grammars and solve the problem: the proof of this.
    Holds(P),
    /// The function of this number is the first whose body is no member of its grammar.
    NotMember(u32),
    /// The bodies' query weighs more than the limit.
    Heavy,
    /// A counterexample: a value of each variable, in order, at which the bodies violate the problem.
    Refuted(Values<T>),
    /// One of the solver's budgets ran out: what shows it.
    Spent(S),
}
