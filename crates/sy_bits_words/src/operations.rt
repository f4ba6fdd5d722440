// The sums of operators on words.
ghost use Rattle.std.specs.Prelude.{
  ◌≡◌,
  ◌≤◌,
  ◌-◌,
  ◌^◌,
  ℕ,
  cond,
  nat_le,
  [],
  ◌∷◌,
  length,
  slice_get,
  Some,
  OnOk,
  IfOk,
  IfSome,
};
ghost use Rattle.sy_gates.specs.Circuits.{Plan, variables, word_bound};
ghost use Rattle.sy_bits_operators.specs.declared.signal.Signal.TheVariants as signals;
ghost use Rattle.sy_terms.specs.declared.op.Op.TheVariants as ops;
ghost use Rattle.sy_bits_operators.specs.Signals.{signals_bound, signal_bound};
ghost use Rattle.sy_bits_words.specs.Standing.{AllStand, IsSumOf};

use crate::known::fixed_number;
use crate::meets::joined_sum;
use crate::words::Words;
use std::alloc::Global;
use sy_bits_operators::Signal;
use sy_bits_sums::{Sum, greatest};
use sy_gates::Bit;
use sy_seq::Want;
use sy_terms::Op;

/// How many monomials a sum has at most that is made of two.
const MOST_MONOMIALS: usize = 64;

/// How many factors a monomial has at most.
const MOST_FACTORS: usize = 16;

/// By what a number of a width is multiplied as it is moved up by a number of places.
fn factor_of(width: u32, by: u64) -> u64
    requires { width ≤ 64 }
    ensures { result ≡ cond (nat_le width by) 0 (2 ^ by) }
{
    if u64::from(width) <= by { 0 } else { 1 << by }
}

/// How many factors the longest monomial of a sum has.
fn degree(sum: &Sum) -> usize {
    let mut most = 0;
    for monomial in sum.monomials.as_slice() {
        most = most.max(monomial.factors.len());
    }
    most
}

/// Whether so few monomials with so few factors arise that the two are made one.
pub(crate) fn are_few(op: &Op, a: &Sum, b: &Sum) -> bool {
    let left = a.monomials.len();
    let right = b.monomials.len();
    let long = degree(a);
    let longer = degree(b);
    if left > MOST_MONOMIALS || right > MOST_MONOMIALS {
        return false;
    }
    if long > MOST_FACTORS || longer > MOST_FACTORS {
        return false;
    }
    match op {
        Op::BvMul => left * right <= MOST_MONOMIALS && long + longer <= MOST_FACTORS,
        _ => left + right <= MOST_MONOMIALS,
    }
}

/// Whether the operator's value is a sum, at some words.
fn makes_sum(op: &Op) -> bool {
    matches!(
        op,
        Op::BvNeg
            | Op::BvNot
            | Op::BvAdd
            | Op::BvSub
            | Op::BvMul
            | Op::BvShl
            | Op::BvAnd
            | Op::BvOr
            | Op::BvXor
    )
}

/// The sum of an operator on one word; `None` where it makes none.
fn single_sum(words: &mut Words, alloc: Global, op: &Op, s: &[Bit]) -> Result<Option<Sum>, Want>
    requires { length s.now ≤ 64 }
    ensures stand { OnOk result ((circuit : Plan) → word_bound s.now ≤ variables circuit →
        AllStand circuit words.old → AllStand circuit words.new) }
    ensures sum { IfOk result (λ found. IfSome found (λ r. (circuit : Plan) →
        AllStand circuit words.new → IsSumOf circuit words.new op.now (signals.Vector s.now ∷ []) r)) }
{
    let Some(place) = words.enter(alloc, s)? else {
        return Ok(None);
    };
    let sum = &words.at(place).sum;
    let width = s.len() as u32;
    let ones = greatest(width);
    match op {
        Op::BvNeg => {
            let zero = Sum::constant(alloc, width, 0)?;
            let negated = zero.plus(alloc, width, sum, ones)?;
            Ok(Some(negated))
        }
        Op::BvNot => {
            let most = Sum::constant(alloc, width, ones)?;
            let inverted = most.plus(alloc, width, sum, ones)?;
            Ok(Some(inverted))
        }
        _ => Ok(None),
    }
}

/// The sum of an operator on two words of one width; `None` where it makes none.
pub(crate) fn pair_sum(
    words: &mut Words,
    alloc: Global,
    op: &Op,
    s: &[Bit],
    t: &[Bit],
) -> Result<Option<Sum>, Want>
    requires width { length s.now ≤ 64 }
    requires same { length t.now ≡ length s.now }
    ensures stand { OnOk result ((circuit : Plan) → word_bound s.now ≤ variables circuit →
        word_bound t.now ≤ variables circuit → AllStand circuit words.old → AllStand circuit words.new) }
    ensures sum { IfOk result (λ found. IfSome found (λ r. (circuit : Plan) → AllStand circuit words.new →
        IsSumOf circuit words.new op.now (signals.Vector s.now ∷ signals.Vector t.now ∷ []) r)) }
{
    let Some(first) = words.enter(alloc, s)? else {
        return Ok(None);
    };
    let Some(second) = words.enter(alloc, t)? else {
        return Ok(None);
    };
    let left = &words.at(first).sum;
    let right = &words.at(second).sum;
    if !are_few(op, left, right) {
        return Ok(None);
    }
    let width = s.len() as u32;
    match op {
        Op::BvAdd => {
            let sum = left.plus(alloc, width, right, 1)?;
            Ok(Some(sum))
        }
        Op::BvSub => {
            let difference = left.minus(alloc, width, right)?;
            Ok(Some(difference))
        }
        Op::BvMul => {
            let product = left.times(alloc, width, right)?;
            Ok(Some(product))
        }
        _ => Ok(None),
    }
}

/// The sum of a word moved up by a number of places that is fixed; `None` where it isn't.
fn moved_sum(words: &mut Words, alloc: Global, s: &[Bit], t: &[Bit]) -> Result<Option<Sum>, Want>
    requires width { length s.now ≤ 64 }
    requires same { length t.now ≡ length s.now }
    ensures stand { OnOk result ((circuit : Plan) → word_bound s.now ≤ variables circuit →
        AllStand circuit words.old → AllStand circuit words.new) }
    ensures sum { IfOk result (λ found. IfSome found (λ r. (circuit : Plan) → AllStand circuit words.new →
        IsSumOf circuit words.new ops.BvShl (signals.Vector s.now ∷ signals.Vector t.now ∷ []) r)) }
{
    let Some(by) = fixed_number(t) else {
        return Ok(None);
    };
    let Some(place) = words.enter(alloc, s)? else {
        return Ok(None);
    };
    let sum = &words.at(place).sum;
    let width = s.len() as u32;
    let factor = factor_of(width, by);
    let zero = Sum::constant(alloc, width, 0)?;
    let moved = zero.plus(alloc, width, sum, factor)?;
    Ok(Some(moved))
}

/// The sum of an operator on two words; `None` where it makes none.
fn vectors_sum(
    words: &mut Words,
    alloc: Global,
    op: &Op,
    s: &[Bit],
    t: &[Bit],
) -> Result<Option<Sum>, Want>
    ensures stand { OnOk result ((circuit : Plan) → word_bound s.now ≤ variables circuit →
        word_bound t.now ≤ variables circuit → AllStand circuit words.old → AllStand circuit words.new) }
    ensures sum { IfOk result (λ found. IfSome found (λ r. (circuit : Plan) → AllStand circuit words.new →
        IsSumOf circuit words.new op.now (signals.Vector s.now ∷ signals.Vector t.now ∷ []) r)) }
{
    if s.len() > 64 || t.len() != s.len() {
        return Ok(None);
    }
    match op {
        Op::BvShl => Ok(moved_sum(words, alloc, s, t)?),
        Op::BvAnd | Op::BvOr | Op::BvXor => Ok(joined_sum(words, alloc, op, s, t)?),
        _ => Ok(pair_sum(words, alloc, op, s, t)?),
    }
}

/// The sum of an operator at one signal; `None` where it makes none.
fn one(words: &mut Words, alloc: Global, op: &Op, s: &Signal) -> Result<Option<Sum>, Want>
    ensures stand { OnOk result ((circuit : Plan) → signal_bound s.now ≤ variables circuit →
        AllStand circuit words.old → AllStand circuit words.new) }
    ensures sum { IfOk result (λ found. IfSome found (λ r. (circuit : Plan) →
        AllStand circuit words.new → IsSumOf circuit words.new op.now (s.now ∷ []) r)) }
{
    match s {
        Signal::Truth(_) => Ok(None),
        Signal::Vector(s) => {
            if s.len() > 64 {
                return Ok(None);
            }
            let sum = single_sum(words, alloc, op, s.as_slice())?;
            Ok(sum)
        }
    }
}

/// The sum of an operator at two signals; `None` where it makes none.
fn two(
    words: &mut Words,
    alloc: Global,
    op: &Op,
    s: &Signal,
    t: &Signal,
) -> Result<Option<Sum>, Want>
    ensures stand { OnOk result ((circuit : Plan) → signal_bound s.now ≤ variables circuit →
        signal_bound t.now ≤ variables circuit → AllStand circuit words.old → AllStand circuit words.new) }
    ensures sum { IfOk result (λ found. IfSome found (λ r. (circuit : Plan) →
        AllStand circuit words.new → IsSumOf circuit words.new op.now (s.now ∷ t.now ∷ []) r)) }
{
    match (s, t) {
        (Signal::Vector(s), Signal::Vector(t)) => {
            let sum = vectors_sum(words, alloc, op, s.as_slice(), t.as_slice())?;
            Ok(sum)
        }
        _ => Ok(None),
    }
}

/// The sum of an operator at signals; `None` where it makes none.
pub(crate) fn sum_of(
    words: &mut Words,
    alloc: Global,
    op: &Op,
    args: &[Signal],
) -> Result<Option<Sum>, Want>
    ensures stand { OnOk result ((circuit : Plan) → signals_bound args.now ≤ variables circuit →
        AllStand circuit words.old → AllStand circuit words.new) }
    ensures sum { IfOk result (λ found. IfSome found (λ r. (circuit : Plan) →
        AllStand circuit words.new → IsSumOf circuit words.new op.now args.now r)) }
{
    if !makes_sum(op) {
        return Ok(None);
    }
    match args {
        [s] => Ok(one(words, alloc, op, s)?),
        [s, t] => Ok(two(words, alloc, op, s, t)?),
        _ => Ok(None),
    }
}
