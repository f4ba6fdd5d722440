// The join of leaves by conditions.
ghost use Rattle.std.specs.Prelude.{◌≡◌, ◌<◌, ◌≤◌, ◌^◌, ℕ, length, IfOk, Contains};
ghost use Rattle.std.specs.List.Sorted.{IsStrictlyIncreasing};
ghost use Rattle.sy_unify.specs.Unify.{IsJoin, IsTreeStep, LeavesWithin};

use crate::choice::{Choice, Joined};
use crate::guide::{Guide, Hint};
use crate::rows::{common_leaf, first_other, keep, splits, splitting_test};
use std::alloc::Global;
use sy_seq::{Seq, Want};

/// All points below a number, in order.
fn all_points(alloc: Global, points: u32) -> Result<Seq<u32>, Want>
    ensures ordered { IfOk result IsStrictlyIncreasing }
    ensures length { IfOk result (λ all. length all ≡ points) }
    ensures all { IfOk result (λ all. (x : ℕ) → x < points → Contains all x) }
    ensures below { IfOk result (λ all. (x : ℕ) → Contains all x → x < points) }
{
    let mut all = Seq::new(alloc);
    for x in 0..points {
        all.push(x)?;
    }
    Ok(all)
}

/// What a join does at a set of points.
enum Step {
    /// A leaf that is good at each of them.
    Serve(u32),
    /// A condition that holds at some of them alone.
    Split(u32),
    /// No leaf is good at each, and no condition splits them.
    Stop,
}

/// What to do at these points: what the hint says where it holds, else the first leaf or condition that serves.
fn next_step(
    goods: &Seq<Seq<bool>>,
    conditions: &Seq<Seq<bool>>,
    hint: Hint,
    points: &[u32],
) -> Step
    requires some { 0 < length points.now }
    requires few_leaves { length goods.now < 2 ^ 31 }
    requires few_conditions { length conditions.now < 2 ^ 31 }
    ensures { IsTreeStep goods.now conditions.now points.now result }
{
    if first_other(goods, hint.leaf, true, points).is_none() {
        return Step::Serve(hint.leaf);
    }
    if splits(conditions, hint.condition, points) {
        return Step::Split(hint.condition);
    }
    if let Some(leaf) = common_leaf(goods, points) {
        return Step::Serve(leaf);
    }
    match splitting_test(conditions, points) {
        Some(condition) => Step::Split(condition),
        None => Step::Stop,
    }
}

/// A tree that serves these points, or a class of them that no tree can serve.
fn join(
    alloc: Global,
    points: Seq<u32>,
    size: u32,
    goods: &Seq<Seq<bool>>,
    conditions: &Seq<Seq<bool>>,
    guide: &Guide,
) -> Result<Joined, Want>
    requires some { 0 < length points }
    requires ordered { IsStrictlyIncreasing points }
    requires few_leaves { length goods.now < 2 ^ 31 }
    requires few_conditions { length conditions.now < 2 ^ 31 }
    ensures joined { IfOk result (IsJoin goods.now conditions.now (Contains points)) }
    ensures leaves { IfOk result (LeavesWithin (length points)) }
{
    let hint = guide.hint(alloc, points.as_slice(), size)?;
    let test = match next_step(goods, conditions, hint, points.as_slice()) {
        Step::Serve(leaf) => return Ok(Joined::Tree(Choice::Leaf(leaf))),
        Step::Stop => return Ok(Joined::Uncovered(points)),
        Step::Split(test) => test,
    };
    let there = keep(alloc, conditions, test, true, points.as_slice())?;
    let yes = match join(alloc, there, size, goods, conditions, guide)? {
        Joined::Tree(tree) => tree,
        Joined::Uncovered(class) => return Ok(Joined::Uncovered(class)),
    };
    let here = keep(alloc, conditions, test, false, points.as_slice())?;
    let no = match join(alloc, here, size, goods, conditions, guide)? {
        Joined::Tree(tree) => tree,
        Joined::Uncovered(class) => return Ok(Joined::Uncovered(class)),
    };
    Ok(Joined::Tree(Choice::Test(test, Box::new(alloc, yes)?, Box::new(alloc, no)?)))
}

/// A tree over leaves and conditions that leads each point to a leaf which is good there, without a test at which all
/// points go to one side; or the points of one class that every condition treats alike and no leaf serves.
pub fn unify(
    alloc: Global,
    points: u32,
    goods: &Seq<Seq<bool>>,
    conditions: &Seq<Seq<bool>>,
) -> Result<Joined, Want>
    requires some { 1 ≤ points }
    requires few_leaves { length goods.now < 2 ^ 31 }
    requires few_conditions { length conditions.now < 2 ^ 31 }
    ensures joined { IfOk result (IsJoin goods.now conditions.now (λ x. x < points)) }
    ensures leaves { IfOk result (LeavesWithin points) }
{
    let all = all_points(alloc, points)?;
    let guide = Guide::new(alloc, goods, conditions)?;
    join(alloc, all, points, goods, conditions, &guide)
}
