// What a file asks for.
use sy_grammar_base::Problem;
use sy_meaning_integers::IntTheory;
use sy_meaning_words::BvTheory;
use sy_scope_causes::Titles;
use sy_terms::Seq;

/// What a file asks for: a problem for each `check-synth`, in order, and the names of the whole file's functions.
#[derive(Drop)]
pub enum Job {
    /// No logic was set.
    Idle,
    /// The logic of integers.
    Ints(Seq<Problem<IntTheory>>, Titles),
    /// The logic of bit vectors.
    Bits(Seq<Problem<BvTheory>>, Titles),
}
