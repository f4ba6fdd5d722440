// Proofs of others checked again.
ghost use Rattle.std.specs.Prelude.{IfOk};
ghost use Rattle.sy_text_items.specs.Views.{item_of};
ghost use Rattle.sy_terms_operators.specs.Evaluation.{BodiesFit};
ghost use Rattle.sy_grammar_base.specs.Fits.{ProblemFits};
ghost use Rattle.sy_grammar_base.specs.Questions.{signatures};
ghost use Rattle.sy_query_base.specs.Asked.{QueryFits, query_of};
ghost use Rattle.sy_verify.specs.Clauses.{IsRecheckedFor};
ghost use Rattle.sy_verify.specs.Rechecking.{IsChecking};

use crate::posed::{Posed, pose};
use crate::proof_checker::{Checking, ProofChecker};
use std::alloc::Global;
use sy_grammar_base::Problem;
use sy_query_base::Query;
use sy_terms::{Bodies, Theory, Want};
use sy_text_items::Sexp;

/// What is found of the bodies of a problem's functions and a proof in text: the first of these cases that applies, in
/// the order `NotMember`, `Heavy`, and then what the checker says of the proof.
#[derive(Clone, Copy, Debug, PartialEq, Eq)]
pub enum Rechecked {
    /// The bodies are members of their grammars and solve the problem, as the proof shows.
    Accepted,
    /// The function of this number is the first whose body is no member of its grammar.
    NotMember(u32),
    /// The bodies' query weighs more than the limit.
    Heavy,
    /// The text is no proof, or none that the checker accepts for the bodies' query.
    Rejected,
    /// A number of the proof's node of this number, in preorder, leaves 128 bits while it is checked.
    Range(u32),
}

/// Whether the item of text proves that the bodies solve the problem. `NotMember` exactly where some body is no member
/// of its function's grammar; otherwise `Heavy` exactly where the bodies' query weighs more than `limit`; otherwise
/// what the checker says of the item for the query. `Want` comes where memory runs out, where 32 bits don't count a
/// function or one of the query's positions, and where the checker answers it.
pub fn recheck<T: Theory, C: ProofChecker<T>>(
    alloc: Global,
    problem: &Problem<T>,
    bodies: &Bodies<T>,
    limit: u32,
    proof: &Sexp,
) -> Result<Rechecked, Want>
    requires problem { ProblemFits T.Theory problem.now }
    requires bodies { BodiesFit T.owned T.denotes problem.now.defs bodies.now (signatures problem.now) }
    ensures { IfOk result (IsRecheckedFor T.Theory C.ProofChecker problem.now limit bodies.now (item_of proof.now)) }
{
    let query = match pose(alloc, problem, bodies, limit)? {
        Posed::NotMember(function) => return Ok(Rechecked::NotMember(function)),
        Posed::Heavy => return Ok(Rechecked::Heavy),
        Posed::Asks(query) => query,
    };
    let found = checked::<T, C>(alloc, query, proof)?;
    match found {
        Checking::Proves => Ok(Rechecked::Accepted),
        Checking::Fails => Ok(Rechecked::Rejected),
        Checking::Overflows(node) => Ok(Rechecked::Range(node)),
    }
}

/// What the checker says of the item for the query.
fn checked<T: Theory, C: ProofChecker<T>>(
    alloc: Global,
    query: Query<T>,
    proof: &Sexp,
) -> Result<Checking, Want>
    requires { QueryFits T.owned T.numeric (query_of T.denotes query) }
    ensures { IfOk result (IsChecking C.proves C.fails C.overflows (query_of T.denotes query) (item_of proof.now)) }
{
    let found = C::check(alloc, &query, proof);
    drop(query);
    found
}
