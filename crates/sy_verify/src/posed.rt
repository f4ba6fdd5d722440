// The query of a problem and bodies, where there is one to be asked.
ghost use Rattle.std.specs.Prelude.{IfOk};
ghost use Rattle.sy_terms_operators.specs.Evaluation.{BodiesFit};
ghost use Rattle.sy_grammar_base.specs.Fits.{ProblemFits};
ghost use Rattle.sy_grammar_base.specs.Questions.{signatures};
ghost use Rattle.sy_verify.specs.Clauses.{PosesFor};

use crate::members::first_outside;
use std::alloc::Global;
use sy_grammar_base::Problem;
use sy_query::{Built, build};
use sy_query_base::Query;
use sy_terms::{Bodies, Theory, Want};

/// What is to be asked of bodies.
#[derive(Drop)]
pub enum Posed<T: Theory> {
    /// The function of this number is the first whose body is no member of its grammar.
    NotMember(u32),
    /// The bodies' query weighs more than the limit.
    Heavy,
    /// The bodies' query.
    Asks(Query<T>),
}

/// The query of the problem and the bodies, where they are members of their grammars and it weighs no more than
/// `limit`. `Want` comes where memory runs out, and where 32 bits don't count a function or one of the query's
/// positions.
pub fn pose<T: Theory>(
    alloc: Global,
    problem: &Problem<T>,
    bodies: &Bodies<T>,
    limit: u32,
) -> Result<Posed<T>, Want>
    requires problem { ProblemFits T.Theory problem.now }
    requires bodies { BodiesFit T.owned T.denotes problem.now.defs bodies.now (signatures problem.now) }
    ensures { IfOk result (PosesFor T.Theory problem.now limit bodies.now) }
{
    if let Some(function) = first_outside(alloc, problem.wanted.as_slice(), bodies.as_slice())? {
        return Ok(Posed::NotMember(function));
    }
    match build(alloc, problem, bodies, limit) {
        Ok(query) => Ok(Posed::Asks(query)),
        Err(Built::Heavy) => Ok(Posed::Heavy),
        Err(Built::Want) => Err(Want {}),
    }
}
