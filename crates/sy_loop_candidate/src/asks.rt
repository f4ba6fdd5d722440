// What candidates ask at stored assignments.
ghost use Rattle.std.specs.Prelude.{◌<◌, length, map, IfOk, OnOk};
ghost use Rattle.sy_terms.specs.Denoted.{expr_of, vals_of};
ghost use Rattle.sy_grammar_base.specs.Questions.{question_of};
ghost use Rattle.sy_grammar_base.specs.Solving.{AreValues};
ghost use Rattle.sy_loop_spec.specs.Stored.{history_of};
ghost use Rattle.sy_loop_truth.specs.Traces.{Calls, AsksAt};
ghost use Rattle.sy_loop_candidate.specs.Answers.{Tries};
ghost use Rattle.sy_grammar_base.specs.Fits.{ProblemFits};
ghost use Rattle.sy_loop_truth.specs.Clauses.{FitAsBodies, IsHeldFor, WidensFor, MeetAllFor};

use crate::trial::Trial;
use std::alloc::Global;
use sy_grammar_base::Problem;
use sy_loop_truth::{Adding, add_calls};
use sy_meaning::{Eval, Trace, evaluate_with};
use sy_points::{Points, Stored};
use sy_query_base::Limits;
use sy_terms::{Bodies, Theory, Value, Want};

/// Adds what the bodies ask at each stored assignment to the points. They meet the problem there.
pub(crate) fn ask_all<T: Theory>(
    alloc: Global,
    problem: &Problem<T>,
    limits: &Limits,
    bodies: &Bodies<T>,
    stored: &Stored<T>,
    points: &mut Points<T>,
) -> Result<Trial, Want>
    requires problem { ProblemFits T.Theory problem.now }
    requires bodies { FitAsBodies T.Theory problem.now bodies.now }
    requires meets { MeetAllFor T.Theory problem.now stored.now (map (expr_of T.denotes) bodies.now) }
    requires held { IsHeldFor T.Theory problem.now limits.now stored.now points.old }
    ensures held { OnOk result (IsHeldFor T.Theory problem.now limits.now stored.now points.new) }
    ensures widens { OnOk result
        (WidensFor T.Theory problem.now stored.now (map (expr_of T.denotes) bodies.now) points.old points.new) }
    ensures answer { IfOk result (Tries (question_of T.denotes problem.now)
        (history_of T.denotes stored.now) (map (expr_of T.denotes) bodies.now) points.old points.new) }
{
    let mut trial = Trial::Due;
    for place in 0..stored.len() {
        let Some(adding) = ask_at(alloc, problem, limits, bodies, stored, place, points)? else {
            return Ok(Trial::Leaves(place));
        };
        match adding {
            Adding::There => {}
            Adding::New => trial = Trial::Asks,
            Adding::Full(function) => return Ok(Trial::Full(function, place)),
        }
    }
    Ok(trial)
}

/// Adds what the bodies ask at the stored assignment of this place to the points; `None` where a constraint leaves the
/// 128 bits there.
pub(crate) fn ask_at<T: Theory>(
    alloc: Global,
    problem: &Problem<T>,
    limits: &Limits,
    bodies: &Bodies<T>,
    stored: &Stored<T>,
    place: usize,
    points: &mut Points<T>,
) -> Result<Option<Adding>, Want>
    requires problem { ProblemFits T.Theory problem.now }
    requires bodies { FitAsBodies T.Theory problem.now bodies.now }
    requires place { place < length stored.now.items }
    requires held { IsHeldFor T.Theory problem.now limits.now stored.now points.old }
    ensures held { OnOk result (IsHeldFor T.Theory problem.now limits.now stored.now points.new) }
    ensures widens { OnOk result
        (WidensFor T.Theory problem.now stored.now (map (expr_of T.denotes) bodies.now) points.old points.new) }
    ensures answer { IfOk result (AsksAt (question_of T.denotes problem.now)
        (history_of T.denotes stored.now) (map (expr_of T.denotes) bodies.now) place points.old points.new) }
{
    let Some((assignment, _)) = stored.get(place) else {
        unreachable!();
    };
    match calls_at(alloc, problem, bodies, assignment.as_slice())? {
        Some(calls) => {
            let adding = add_calls(points, &calls)?;
            Ok(Some(adding))
        }
        None => Ok(None),
    }
}

/// What all constraints ask under the bodies at the assignment; `None` where one leaves the 128 bits.
fn calls_at<T: Theory>(
    alloc: Global,
    problem: &Problem<T>,
    bodies: &Bodies<T>,
    values: &[Value<T::Num>],
) -> Result<Option<Trace<T>>, Want>
    requires problem { ProblemFits T.Theory problem.now }
    requires bodies { FitAsBodies T.Theory problem.now bodies.now }
    requires values { AreValues problem.now.vars (vals_of T.denotes values.now) }
    ensures { IfOk result (Calls (question_of T.denotes problem.now)
        (map (expr_of T.denotes) bodies.now) (vals_of T.denotes values.now)) }
{
    let mut calls = Trace::new(alloc);
    for term in problem.constraints.as_slice() {
        match evaluate_with(alloc, &problem.defs, bodies, values, term, &mut calls) {
            Ok(_) => {}
            Err(Eval::Range) => return Ok(None),
            Err(Eval::Want) => return Err(Want {}),
        }
    }
    Ok(Some(calls))
}
