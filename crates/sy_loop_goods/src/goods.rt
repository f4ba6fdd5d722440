// At which points kept terms are good.
// Functions here have more than seven parameters where clauses name the problem, what is stored, the points and the
// constraints apart, as those of the crates below do: a record of them would be taken apart at each call.
ghost use Rattle.std.specs.Prelude.{◌≡◌, ◌<◌, length, filter, IfOk, IfSome, OnOk, None};
ghost use Rattle.sy_bank_level.specs.Stored.{chosen_of};
ghost use Rattle.sy_grammar_base.specs.Fits.{ProblemFits};
ghost use Rattle.sy_grammar_base.specs.Questions.{question_of};
ghost use Rattle.sy_points.specs.Asked.{AreDistinct, of_function};
ghost use Rattle.sy_loop_spec.specs.Pointwise.{IsPointwise};
ghost use Rattle.sy_loop_truth.specs.Clauses.{AreAssignedFor, AreRestsFor};
ghost use Rattle.sy_loop_goods.specs.Clauses.{AreLeavesFor, AreGoodsFor, IsColumnFor, IsLeavingFor, IsMemoFor};
ghost use Rattle.sy_loop_goods.specs.Columns.{is_on};
ghost use Rattle.sy_loop_goods.specs.Judged.{good_of, leaving_of};

use crate::Memo;
use crate::judging::Judged;
use crate::leaf::judge_leaf;
use crate::rows::transposed;
use std::alloc::Global;
use std::collections::HashMap;
use sy_bank_level::Kept;
use sy_grammar_base::Problem;
use sy_loop_truth::Rest;
use sy_points::{Points, Stored};
use sy_terms::{Seq, Theory, Value, Want};

/// Under the leaf of this number a constraint leaves the 128 bits at the stored assignment of this place.
#[derive(Clone, Copy)]
pub struct Leaving {
    pub leaf: usize,
    pub place: usize,
}

/// A row for each leaf, which says at which points it is good; and a leaf of which it isn't known, if there is one.
#[derive(Drop)]
pub struct Goods {
    pub rows: Seq<Seq<bool>>,
    pub leaving: Option<Leaving>,
}

/// Which of the leaves are good at a point; and a leaf of which it isn't known, if there is one.
#[derive(Drop)]
struct Column {
    goods: Seq<bool>,
    leaving: Option<Leaving>,
}

/// At which points the leaves are good: each constraint that rests on the point is true under the leaf. Constraints
/// that the memo tells of aren't evaluated again, and those that are add to it.
pub fn good_rows<T: Theory>(
    alloc: Global,
    problem: &Problem<T>,
    stored: &Stored<T>,
    points: &Points<T>,
    rests: &[Rest],
    leaves: &[&Kept<T>],
    memo: &mut Memo<T>,
) -> Result<Goods, Want>
    requires problem { ProblemFits T.Theory problem.now }
    requires pointwise { IsPointwise (question_of T.denotes problem.now) }
    requires assigned { AreAssignedFor T.Theory problem.now stored.now }
    requires function { 0 < length points.now.tuples }
    requires rests { AreRestsFor T.Theory problem.now stored.now points.now rests.now }
    requires leaves { AreLeavesFor T.Theory problem.now points.now (chosen_of T.denotes leaves.now) }
    requires memo { IsMemoFor T.Theory problem.now memo.old }
    ensures many { IfOk result (λ goods. length goods.rows ≡ length leaves.now) }
    ensures goods { IfOk result (λ goods. goods.leaving ≡ None →
        AreGoodsFor T.Theory problem.now stored.now points.now (chosen_of T.denotes leaves.now) goods.rows) }
    ensures leaving { IfOk result (λ goods.
        IfSome goods.leaving (IsLeavingFor T.Theory problem.now stored.now (chosen_of T.denotes leaves.now))) }
    ensures memo { OnOk result (IsMemoFor T.Theory problem.now memo.new) }
{
    memo.widen(alloc, stored)?;
    let tuples = points.of(0);
    let mut columns = Vec::with_capacity(alloc, tuples.len())?;
    let mut leaving = None;
    for point in 0..tuples.len() {
        let column = good_column(alloc, problem, stored, points, rests, leaves, point, memo)?;
        columns.push(column.goods)?;
        leaving = column.leaving.or(leaving);
    }
    let rows = transposed(alloc, columns.as_slice(), leaves.len())?;
    Ok(Goods { rows, leaving })
}

/// Which of the leaves are good at the point of this number.
fn good_column<T: Theory>(
    alloc: Global,
    problem: &Problem<T>,
    stored: &Stored<T>,
    points: &Points<T>,
    rests: &[Rest],
    leaves: &[&Kept<T>],
    point: usize,
    memo: &mut Memo<T>,
) -> Result<Column, Want>
    requires problem { ProblemFits T.Theory problem.now }
    requires pointwise { IsPointwise (question_of T.denotes problem.now) }
    requires assigned { AreAssignedFor T.Theory problem.now stored.now }
    requires function { 0 < length points.now.tuples }
    requires rests { AreRestsFor T.Theory problem.now stored.now points.now rests.now }
    requires leaves { AreLeavesFor T.Theory problem.now points.now (chosen_of T.denotes leaves.now) }
    requires distinct { AreDistinct (of_function points.now 0) }
    requires memo { IsMemoFor T.Theory problem.now memo.old }
    ensures goods { IfOk result (λ column. column.leaving ≡ None →
        IsColumnFor T.Theory problem.now stored.now points.now (chosen_of T.denotes leaves.now) point column.goods) }
    ensures leaving { IfOk result (λ column.
        IfSome column.leaving (IsLeavingFor T.Theory problem.now stored.now (chosen_of T.denotes leaves.now))) }
    ensures memo { OnOk result (IsMemoFor T.Theory problem.now memo.new) }
{
    let here = rests_on(alloc, rests, point)?;
    let mut goods = Seq::new(alloc);
    let mut leaving = None;
    let mut firsts: HashMap<Value<T::Num>, usize> = HashMap::new(alloc);
    for leaf in 0..leaves.len() {
        let judged = judge_leaf(
            alloc,
            problem,
            stored,
            points,
            here.as_slice(),
            leaves,
            leaf,
            point,
            goods.as_slice(),
            &mut firsts,
            memo,
        )?;
        goods.push(is_good(judged))?;
        leaving = leaving_by(judged, leaf).or(leaving);
    }
    Ok(Column { goods, leaving })
}

/// Those that rest on the point of this number, in order.
fn rests_on(alloc: Global, rests: &[Rest], point: usize) -> Result<Vec<Rest>, Want>
    ensures { IfOk result (λ here. here.items ≡ filter (is_on point) rests.now) }
{
    let mut here = Vec::new(alloc);
    for rest in rests {
        if rest.point == point {
            here.push(*rest)?;
        }
    }
    Ok(here)
}

/// Whether all are true.
fn is_good(judged: Judged) -> bool
    ensures { result ≡ good_of judged }
{
    match judged {
        Judged::Good => true,
        Judged::Bad => false,
        Judged::Leaves(_) => false,
    }
}

/// The leaf of this number, where a constraint leaves the 128 bits.
fn leaving_by(judged: Judged, leaf: usize) -> Option<Leaving>
    ensures { result ≡ leaving_of judged leaf }
{
    match judged {
        Judged::Good => None,
        Judged::Bad => None,
        Judged::Leaves(place) => Some(Leaving { leaf, place }),
    }
}
