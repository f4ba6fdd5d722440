// Candidates judged by a solver.
ghost use Rattle.std.specs.Prelude.{IfOk};
ghost use Rattle.sy_terms_operators.specs.Evaluation.{BodiesFit};
ghost use Rattle.sy_grammar_base.specs.Fits.{ProblemFits};
ghost use Rattle.sy_grammar_base.specs.Questions.{signatures};
ghost use Rattle.sy_query_base.specs.Answers.{Answers};
ghost use Rattle.sy_query_base.specs.Asked.{QueryFits, query_of};
ghost use Rattle.sy_verify.specs.Clauses.{IsCheckedFor};

use crate::checked::Checked;
use crate::posed::{Posed, pose};
use std::alloc::Global;
use sy_grammar_base::Problem;
use sy_query_base::{Decide, Limits, Query, Verdict};
use sy_terms::{Bodies, Theory, Want};

/// Whether the bodies solve the problem. `NotMember` exactly where some body is no member of its function's grammar;
/// otherwise `Heavy` exactly where the bodies' query weighs more than `limits.weight`; otherwise what the solver says
/// of the query. `Want` comes where memory runs out, where 32 bits don't count a function or one of the query's
/// positions, and where the solver answers it.
pub fn verify<T: Theory, D: Decide<T>>(
    alloc: Global,
    problem: &Problem<T>,
    bodies: &Bodies<T>,
    limits: &Limits,
    decide: &mut D,
) -> Result<Checked<T, D::Proof, D::Spent>, Want>
    requires problem { ProblemFits T.Theory problem.now }
    requires bodies { BodiesFit T.owned T.denotes problem.now.defs bodies.now (signatures problem.now) }
    ensures { IfOk result (IsCheckedFor T.Theory D.Decide problem.now limits.now bodies.now) }
{
    let query = match pose(alloc, problem, bodies, limits.weight)? {
        Posed::NotMember(function) => return Ok(Checked::NotMember(function)),
        Posed::Heavy => return Ok(Checked::Heavy),
        Posed::Asks(query) => query,
    };
    match answered(alloc, limits, decide, query)? {
        Verdict::Never(proof) => Ok(Checked::Holds(proof)),
        Verdict::Model(values) => Ok(Checked::Refuted(values)),
        Verdict::Spent(spent) => Ok(Checked::Spent(spent)),
    }
}

/// What the solver answers to the query, within the limits.
fn answered<T: Theory, D: Decide<T>>(
    alloc: Global,
    limits: &Limits,
    decide: &mut D,
    query: Query<T>,
) -> Result<Verdict<T, D::Proof, D::Spent>, Want>
    requires { QueryFits T.owned T.numeric (query_of T.denotes query) }
    ensures { IfOk result (Answers T.denotes D.accepted D.budget D.shows (query_of T.denotes query) limits.now) }
{
    let answer = decide.decide(alloc, &query, limits);
    drop(query);
    answer
}
