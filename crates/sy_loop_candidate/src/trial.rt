// Candidates at the stored assignments.
ghost use Rattle.std.specs.Prelude.{◌≡◌, map, IfOk, OnOk};
ghost use Rattle.sy_terms.specs.Denoted.{expr_of};
ghost use Rattle.sy_grammar_base.specs.Questions.{question_of};
ghost use Rattle.sy_loop_spec.specs.Stored.{history_of};
ghost use Rattle.sy_loop_candidate.specs.Answers.{Tries, trial_of};
ghost use Rattle.sy_grammar_base.specs.Fits.{ProblemFits};
ghost use Rattle.sy_loop_truth.specs.Clauses.{FitAsBodies, IsHeldFor, WidensFor};

use crate::asks::ask_all;
use std::alloc::Global;
use sy_grammar_base::Problem;
use sy_loop_truth::{Adding, Truth, add_calls, judge};
use sy_points::{Points, Stored};
use sy_query_base::Limits;
use sy_terms::{Bodies, Theory, Want};

/// What became of bodies that were tried.
#[derive(Clone, Copy)]
pub(crate) enum Trial {
    /// They meet the problem at every stored assignment, and all that they ask there was there.
    Due,
    /// They violate it at one, and all that shows it was there.
    Refuted,
    /// Something that they ask at one is new.
    Asks,
    /// The function of this number has as many tuples as it may, and at the stored assignment of this place they ask
    /// for one more.
    Full(u32, usize),
    /// An assumption or a constraint leaves the 128 bits at the stored assignment of this place.
    Leaves(usize),
}

/// Tries the bodies at the stored assignments up to the first where they don't meet the problem: what shows this is
/// added to the points. Where they meet it at all of them, what they ask at each is added.
pub(crate) fn try_bodies<T: Theory>(
    alloc: Global,
    problem: &Problem<T>,
    limits: &Limits,
    bodies: &Bodies<T>,
    stored: &Stored<T>,
    points: &mut Points<T>,
) -> Result<Trial, Want>
    requires problem { ProblemFits T.Theory problem.now }
    requires bodies { FitAsBodies T.Theory problem.now bodies.now }
    requires held { IsHeldFor T.Theory problem.now limits.now stored.now points.old }
    ensures held { OnOk result (IsHeldFor T.Theory problem.now limits.now stored.now points.new) }
    ensures widens { OnOk result
        (WidensFor T.Theory problem.now stored.now (map (expr_of T.denotes) bodies.now) points.old points.new) }
    ensures answer { IfOk result (Tries (question_of T.denotes problem.now)
        (history_of T.denotes stored.now) (map (expr_of T.denotes) bodies.now) points.old points.new) }
{
    for place in 0..stored.len() {
        let Some((assignment, _)) = stored.get(place) else {
            unreachable!();
        };
        match judge(alloc, problem, bodies, assignment.as_slice())? {
            Truth::True => {}
            Truth::False(calls) => {
                let adding = add_calls(points, &calls)?;
                return Ok(refuted(adding, place));
            }
            Truth::Leaves => return Ok(Trial::Leaves(place)),
        }
    }
    let trial = ask_all(alloc, problem, limits, bodies, stored, points)?;
    Ok(trial)
}

/// What became of bodies that violate the problem at the stored assignment of this place.
fn refuted(adding: Adding, place: usize) -> Trial
    ensures { result ≡ trial_of adding place }
{
    match adding {
        Adding::There => Trial::Refuted,
        Adding::New => Trial::Asks,
        Adding::Full(function) => Trial::Full(function, place),
    }
}
