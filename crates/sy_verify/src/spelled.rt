// The clauses of the query of bodies.
ghost use Rattle.std.specs.Prelude.{IfOk, MatchOption};
ghost use Rattle.sy_terms_operators.specs.Evaluation.{BodiesFit};
ghost use Rattle.sy_grammar_base.specs.Fits.{ProblemFits};
ghost use Rattle.sy_grammar_base.specs.Questions.{signatures};
ghost use Rattle.sy_query_base.specs.Asked.{QueryFits, query_of};
ghost use Rattle.sy_verify.specs.Clauses.{IsSpelledFor};

use crate::clause_writer::ClauseWriter;
use crate::posed::{Posed, pose};
use std::alloc::Global;
use sy_grammar_base::Problem;
use sy_io::Bytes;
use sy_query_base::Query;
use sy_terms::{Bodies, Theory, Want};

/// What is said of the bodies of a problem's functions whose query's clauses are asked for: the first of these cases
/// that applies.
#[derive(Drop)]
pub enum Spelled {
    /// The function of this number is the first whose body is no member of its grammar.
    NotMember(u32),
    /// The bodies' query weighs more than the limit.
    Heavy,
    /// The text of clauses of the bodies' query.
    Clauses(Bytes),
    /// The bodies' query has no clauses.
    NoClauses,
}

/// The clauses of the query of the problem and the bodies, where they are members of their grammars and it weighs no
/// more than `limit`. `Want` comes where memory runs out, where 32 bits don't count a function or one of the query's
/// positions, and where the writer answers it.
pub fn spell<T: Theory, W: ClauseWriter<T>>(
    alloc: Global,
    problem: &Problem<T>,
    bodies: &Bodies<T>,
    limit: u32,
) -> Result<Spelled, Want>
    requires problem { ProblemFits T.Theory problem.now }
    requires bodies { BodiesFit T.owned T.denotes problem.now.defs bodies.now (signatures problem.now) }
    ensures { IfOk result (IsSpelledFor T.Theory W.ClauseWriter problem.now limit bodies.now) }
{
    let query = match pose(alloc, problem, bodies, limit)? {
        Posed::NotMember(function) => return Ok(Spelled::NotMember(function)),
        Posed::Heavy => return Ok(Spelled::Heavy),
        Posed::Asks(query) => query,
    };
    match written::<T, W>(alloc, query)? {
        Some(text) => Ok(Spelled::Clauses(text)),
        None => Ok(Spelled::NoClauses),
    }
}

/// The text of clauses of the query.
fn written<T: Theory, W: ClauseWriter<T>>(
    alloc: Global,
    query: Query<T>,
) -> Result<Option<Bytes>, Want>
    requires { QueryFits T.owned T.numeric (query_of T.denotes query) }
    ensures { IfOk result (λ found. MatchOption found (W.lacks (query_of T.denotes query))
        (W.spells (query_of T.denotes query))) }
{
    let found = W::clauses(alloc, &query);
    drop(query);
    found
}
