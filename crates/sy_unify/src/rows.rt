// Rows of truth values, one at each point.
ghost use Rattle.std.specs.Prelude.{◌≡◌, ◌<◌, ◌≤◌, ◌^◌, ℕ, length, IfOk, IsTrue, MatchOption, Contains, All, slice_index, true, false, filter};
ghost use Rattle.sy_unify.specs.Rows.{holds_at, on_side};

use std::alloc::Global;
use sy_seq::{Seq, Want};

/// What a row says at a point.
pub(crate) fn holds(rows: &Seq<Seq<bool>>, row: u32, point: u32) -> bool
    ensures { result ≡ holds_at rows.now row point }
{
    match rows.get(row as usize) {
        None => false,
        Some(values) => match values.get(point as usize) {
            None => false,
            Some(value) => *value,
        },
    }
}

/// The first of these points at which a row doesn't say `side`.
pub(crate) fn first_other(
    rows: &Seq<Seq<bool>>,
    row: u32,
    side: bool,
    points: &[u32],
) -> Option<u32>
    ensures { MatchOption result (All (λ x. holds_at rows.now row x ≡ side) points.now)
        (λ x. Contains points.now x × (on_side side (holds_at rows.now row x) ≡ false)) }
{
    for x in points {
        if holds(rows, row, *x) != side {
            return Some(*x);
        }
    }
    None
}

/// The first leaf that is good at each of these points.
pub(crate) fn common_leaf(goods: &Seq<Seq<bool>>, points: &[u32]) -> Option<u32>
    requires some { 0 < length points.now }
    requires few { length goods.now < 2 ^ 31 }
    ensures { MatchOption result ((leaf : ℕ) → (x : ℕ) × Contains points.now x × (holds_at goods.now leaf x ≡ false))
        (λ leaf. All (λ x. holds_at goods.now leaf x ≡ true) points.now) }
{
    for leaf in 0..goods.len() as u32 {
        let Some(_other) = first_other(goods, leaf, true, points) else {
            return Some(leaf);
        };
    }
    None
}

/// The first condition that doesn't treat these points alike.
pub(crate) fn splitting_test(conditions: &Seq<Seq<bool>>, points: &[u32]) -> Option<u32>
    requires some { 0 < length points.now }
    requires few { length conditions.now < 2 ^ 31 }
    ensures { MatchOption result
        ((row : ℕ) →
        All (λ x. holds_at conditions.now row x ≡ holds_at conditions.now row (slice_index points.now 0)) points.now)
        (λ row. ((x : ℕ) × Contains points.now x × (holds_at conditions.now row x ≡ true))
        × ((x : ℕ) × Contains points.now x × (holds_at conditions.now row x ≡ false))) }
{
    for row in 0..conditions.len() as u32 {
        let side = holds(conditions, row, points[0]);
        if first_other(conditions, row, side, points).is_some() {
            return Some(row);
        }
    }
    None
}

/// Whether a condition holds at some of these points and not at others.
pub(crate) fn splits(conditions: &Seq<Seq<bool>>, row: u32, points: &[u32]) -> bool
    ensures { IsTrue result → (((x : ℕ) × Contains points.now x × (holds_at conditions.now row x ≡ true))
        × ((x : ℕ) × Contains points.now x × (holds_at conditions.now row x ≡ false))) }
{
    first_other(conditions, row, true, points).is_some()
        && first_other(conditions, row, false, points).is_some()
}

/// Those of the points at which a row says `side`, in order.
pub(crate) fn keep(
    alloc: Global,
    rows: &Seq<Seq<bool>>,
    row: u32,
    side: bool,
    points: &[u32],
) -> Result<Seq<u32>, Want>
    ensures { IfOk result (λ kept. kept ≡ filter (λ x. on_side side (holds_at rows.now row x)) points.now) }
{
    let mut kept = Seq::new(alloc);
    for x in points {
        if holds(rows, row, *x) == side {
            kept.push(*x)?;
        }
    }
    Ok(kept)
}
