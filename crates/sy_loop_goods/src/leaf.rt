// What is known of a leaf at a point.
// Functions here have more than seven parameters where clauses name the problem, what is stored, the points and the
// constraints apart, as those of the crates below do: a record of them would be taken apart at each call.
ghost use Rattle.std.specs.Prelude.{◌<◌, length, All, IfOk, IfSome, OnOk};
ghost use Rattle.sy_bank_level.specs.Stored.{chosen_of};
ghost use Rattle.sy_grammar_base.specs.Fits.{ProblemFits};
ghost use Rattle.sy_grammar_base.specs.Questions.{question_of};
ghost use Rattle.sy_loop_spec.specs.Pointwise.{IsPointwise};
ghost use Rattle.sy_loop_truth.specs.Clauses.{AreAssignedFor, IsRestFor};
ghost use Rattle.sy_loop_goods.specs.Clauses.{AreLeavesFor, IsMemoFor, JudgesLeafFor};
ghost use Rattle.sy_loop_goods.specs.Judged.{IsCopied};

use crate::Memo;
use crate::judging::{Judged, body_of, judge};
use crate::recall::{judged_by, recall, value_at};
use std::alloc::Global;
use std::collections::HashMap;
use sy_bank_level::Kept;
use sy_grammar_base::Problem;
use sy_loop_truth::Rest;
use sy_points::{Points, Stored};
use sy_terms::{Theory, Value, Want, same_value};

/// What is known of the leaf of this number at the point: what the column says of one of the same value there, where
/// `firsts` leads to it; what the memo says of these constraints, which rest on the point; or what they tell.
pub(crate) fn judge_leaf<T: Theory>(
    alloc: Global,
    problem: &Problem<T>,
    stored: &Stored<T>,
    points: &Points<T>,
    here: &[Rest],
    leaves: &[&Kept<T>],
    leaf: usize,
    point: usize,
    goods: &[bool],
    firsts: &mut HashMap<Value<T::Num>, usize>,
    memo: &mut Memo<T>,
) -> Result<Judged, Want>
    requires problem { ProblemFits T.Theory problem.now }
    requires pointwise { IsPointwise (question_of T.denotes problem.now) }
    requires assigned { AreAssignedFor T.Theory problem.now stored.now }
    requires rests { All (IsRestFor T.Theory problem.now stored.now points.now) here.now }
    requires leaves { AreLeavesFor T.Theory problem.now points.now (chosen_of T.denotes leaves.now) }
    requires leaf { leaf < length leaves.now }
    requires memo { IsMemoFor T.Theory problem.now memo.old }
    ensures judged { IfOk result
        (JudgesLeafFor T.Theory problem.now stored.now (chosen_of T.denotes leaves.now) leaf point here.now goods.now) }
    ensures memo { OnOk result (IsMemoFor T.Theory problem.now memo.new) }
{
    if let Some(good) = copied::<T>(leaves, leaf, point, goods, firsts) {
        return Ok(judged_by(good));
    }
    let kept = leaves[leaf];
    if let Some(value) = value_at::<T>(kept, point) {
        firsts.insert(value, leaf)?;
    }
    if let Some(good) = recall(problem, stored, points, here, kept, memo) {
        return Ok(judged_by(good));
    }
    let bodies = body_of(alloc, kept)?;
    let judged = judge(alloc, problem, stored, points, here, kept, &bodies, memo)?;
    Ok(judged)
}

/// What the column says of a leaf of the same value at the point, where `firsts` leads to one.
fn copied<T: Theory>(
    leaves: &[&Kept<T>],
    leaf: usize,
    point: usize,
    goods: &[bool],
    firsts: &HashMap<Value<T::Num>, usize>,
) -> Option<bool>
    requires leaf { leaf < length leaves.now }
    ensures { IfSome result (IsCopied (chosen_of T.denotes leaves.now) leaf point goods.now) }
{
    let value = value_at::<T>(leaves[leaf], point)?;
    let other = *firsts.get(&value)?;
    let good = *goods.get(other)?;
    let found = value_at::<T>(leaves.get(other)?, point)?;
    if same_value::<T>(&value, &found) {
        Some(good)
    } else {
        None
    }
}
