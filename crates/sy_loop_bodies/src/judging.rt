// Whether bodies meet a problem at assignments.
ghost use Rattle.std.specs.Prelude.{All};
ghost use Rattle.sy_terms.specs.Denoted.{vals_of};
ghost use Rattle.sy_grammar_base.specs.Fits.{IsTruth, ProblemFits};
ghost use Rattle.sy_grammar_base.specs.Solving.{AreValues};
ghost use Rattle.sy_loop_truth.specs.Clauses.{FitAsBodies};
ghost use Rattle.sy_loop_bodies.specs.Clauses.{AreAssignedFor};

use std::alloc::Global;
use sy_grammar_base::Problem;
use sy_loop_truth::{Truth, all_true};
use sy_terms::{Bodies, Term, Theory, Value, Values, Want};

/// Whether the bodies meet the problem at each of the assignments, the last first. It is a guess: nothing is decided by
/// it but which bodies a solver is asked about.
pub(crate) fn meet_all<T: Theory>(
    alloc: Global,
    problem: &Problem<T>,
    bodies: &Bodies<T>,
    assignments: &[Values<T>],
) -> Result<bool, Want>
    requires problem { ProblemFits T.Theory problem.now }
    requires bodies { FitAsBodies T.Theory problem.now bodies.now }
    requires assignments { AreAssignedFor T.Theory problem.now assignments.now }
{
    for later in 0..assignments.len() {
        let place = assignments.len() - 1 - later;
        if !meet(alloc, problem, bodies, assignments[place].as_slice())? {
            return Ok(false);
        }
    }
    Ok(true)
}

/// Whether the bodies make an assumption false, or every constraint true.
fn meet<T: Theory>(
    alloc: Global,
    problem: &Problem<T>,
    bodies: &Bodies<T>,
    values: &[Value<T::Num>],
) -> Result<bool, Want>
    requires problem { ProblemFits T.Theory problem.now }
    requires bodies { FitAsBodies T.Theory problem.now bodies.now }
    requires values { AreValues problem.now.vars (vals_of T.denotes values.now) }
{
    let constraints = problem.constraints.as_slice();
    if are_true(alloc, problem, bodies, values, constraints)? {
        return Ok(true);
    }
    let assumptions = problem.assumptions.as_slice();
    let assumed = are_true(alloc, problem, bodies, values, assumptions)?;
    Ok(!assumed)
}

/// Whether all of the terms are true; what leaves the 128 bits isn't.
fn are_true<T: Theory>(
    alloc: Global,
    problem: &Problem<T>,
    bodies: &Bodies<T>,
    values: &[Value<T::Num>],
    terms: &[Term<T>],
) -> Result<bool, Want>
    requires problem { ProblemFits T.Theory problem.now }
    requires bodies { FitAsBodies T.Theory problem.now bodies.now }
    requires values { AreValues problem.now.vars (vals_of T.denotes values.now) }
    requires terms { All (IsTruth T.owned T.denotes problem.now) terms.now }
{
    match all_true(alloc, problem, bodies, values, terms)? {
        Truth::True => Ok(true),
        Truth::False(_) => Ok(false),
        Truth::Leaves => Ok(false),
    }
}
