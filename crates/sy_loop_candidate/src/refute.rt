// Candidates that rows refute.
ghost use Rattle.std.specs.Prelude.{◌≡◌, ◌≤◌, IsTrue, false, length, IfOk};
ghost use Rattle.sy_grammar_base.specs.Questions.{question_of, signatures};
ghost use Rattle.sy_loop_spec.specs.Stored.{history_of};
ghost use Rattle.sy_loop_spec.specs.Trials.{IsRefuted};
ghost use Rattle.sy_loop_candidate.specs.Bodies.{AreBodies, bodies_of};
ghost use Rattle.sy_loop_candidate.specs.Observing.{KeptHaveRows};
ghost use Rattle.sy_loop_candidate.specs.Refuting.{AreReady, AreTaken, AreAssignments, IsOpenCandidate, IsOpenWithin};
ghost use Rattle.sy_grammar_base.specs.Fits.{ProblemFits};

use crate::suspects::Suspects;
use crate::tell::{is_violated_by, violated_constraint};
use std::alloc::Global;
use sy_bank_level::Kept;
use sy_grammar_base::Problem;
use sy_points::{Points, Stored};
use sy_terms::{Theory, Want};

/// Whether the rows of the chosen terms, one for each function to be found, show that these as bodies violate the
/// problem at a stored assignment. A row shows nothing of a call at a tuple that isn't among its function's points.
/// What refuted earlier ones is looked at first. `Want` comes where memory runs out, and nowhere else.
pub fn are_refuted<T: Theory>(
    alloc: Global,
    problem: &Problem<T>,
    chosen: &[&Kept<T>],
    points: &Points<T>,
    stored: &Stored<T>,
    suspects: &mut Suspects,
) -> Result<bool, Want>
    requires problem { ProblemFits T.Theory problem.now }
    requires bodies { AreBodies T.owned problem.now.defs (bodies_of T.denotes chosen.now) (signatures problem.now) }
    requires rows { KeptHaveRows T.owned T.denotes problem.now.defs points.now chosen.now }
    requires functions { length points.now.tuples ≡ length (question_of T.denotes problem.now).goals }
    requires taken { AreTaken (question_of T.denotes problem.now) points.now }
    requires stored { AreAssignments (question_of T.denotes problem.now) (history_of T.denotes stored.now) }
    ensures refuted { IfOk result (λ refuted. IsTrue refuted → IsRefuted (question_of T.denotes problem.now)
        (history_of T.denotes stored.now) points.now (bodies_of T.denotes chosen.now)) }
    ensures open { IfOk result (λ refuted. refuted ≡ false → IsOpenCandidate (question_of T.denotes problem.now)
        (history_of T.denotes stored.now) points.now (bodies_of T.denotes chosen.now)) }
{
    let count = stored.len();
    suspects.cover(count)?;
    if are_refuted_again(alloc, problem, chosen, points, stored, suspects)? {
        return Ok(true);
    }
    let first = suspects.assignment(0).min(count);
    if are_refuted_between(
        alloc, problem, chosen, points, stored, suspects, first, count,
    )? {
        return Ok(true);
    }
    let refuted = are_refuted_between(alloc, problem, chosen, points, stored, suspects, 0, first)?;
    Ok(refuted)
}

/// Whether one of the suspects shows the violation: at a stored assignment the constraint that was false there last.
fn are_refuted_again<T: Theory>(
    alloc: Global,
    problem: &Problem<T>,
    chosen: &[&Kept<T>],
    points: &Points<T>,
    stored: &Stored<T>,
    suspects: &mut Suspects,
) -> Result<bool, Want>
    requires problem { ProblemFits T.Theory problem.now }
    requires ready { AreReady T.owned T.denotes problem.now points.now chosen.now }
    requires stored { AreAssignments (question_of T.denotes problem.now) (history_of T.denotes stored.now) }
    ensures { IfOk result (λ refuted. IsTrue refuted → IsRefuted (question_of T.denotes problem.now)
        (history_of T.denotes stored.now) points.now (bodies_of T.denotes chosen.now)) }
{
    for rank in 0..suspects.len() {
        let place = suspects.assignment(rank);
        let Some((assignment, _)) = stored.get(place) else {
            return Ok(false);
        };
        let values = assignment.as_slice();
        let constraint = suspects.constraint(place);
        if is_violated_by(alloc, problem, chosen, points, values, constraint)? {
            suspects.advance(rank);
            return Ok(true);
        }
    }
    Ok(false)
}

/// Whether the violation is shown at a stored assignment from the place `from` on and before `to`. The constraint that
/// shows it is a suspect from now on.
/// Eight parameters: the places are handed on beside what a whole search for a violation has.
fn are_refuted_between<T: Theory>(
    alloc: Global,
    problem: &Problem<T>,
    chosen: &[&Kept<T>],
    points: &Points<T>,
    stored: &Stored<T>,
    suspects: &mut Suspects,
    from: usize,
    to: usize,
) -> Result<bool, Want>
    requires problem { ProblemFits T.Theory problem.now }
    requires ready { AreReady T.owned T.denotes problem.now points.now chosen.now }
    requires stored { AreAssignments (question_of T.denotes problem.now) (history_of T.denotes stored.now) }
    requires within { to ≤ length stored.now.items }
    ensures refuted { IfOk result (λ refuted. IsTrue refuted → IsRefuted (question_of T.denotes problem.now)
        (history_of T.denotes stored.now) points.now (bodies_of T.denotes chosen.now)) }
    ensures open { IfOk result (λ refuted. refuted ≡ false → IsOpenWithin (question_of T.denotes problem.now)
        (history_of T.denotes stored.now) points.now (bodies_of T.denotes chosen.now) from to) }
{
    for place in from..to {
        let Some((assignment, _)) = stored.get(place) else {
            unreachable!();
        };
        let values = assignment.as_slice();
        let first = suspects.constraint(place);
        if let Some(constraint) = violated_constraint(
            alloc, problem, chosen, points, values, first,
        )? {
            suspects.note(place, constraint);
            return Ok(true);
        }
    }
    Ok(false)
}
