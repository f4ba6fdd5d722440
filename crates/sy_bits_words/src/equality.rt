// Equalities of words, by the normal form of their difference.
ghost use Rattle.std.specs.Prelude.{◌≡◌, ◌≤◌, [], ◌∷◌, length, OnOk, IfOk, IfSome};
ghost use Rattle.sy_gates.specs.Circuits.{Plan, variables, word_bound};
ghost use Rattle.sy_bits_operators.specs.declared.signal.Signal.TheVariants as signals;
ghost use Rattle.sy_bits_operators.specs.Signals.{signals_bound, signal_bound};
ghost use Rattle.sy_bits_words.specs.Standing.{AllStand, AreEqualWhere, HaveItsValue};

use crate::operations::are_few;
use crate::words::Words;
use std::alloc::Global;
use sy_bits_operators::Signal;
use sy_gates::Bit;
use sy_seq::{Seq, Want};
use sy_terms::Op;

/// The signals of two vectors.
fn vectors(alloc: Global, left: Seq<Bit>, right: Seq<Bit>) -> Result<Vec<Signal>, Want>
    ensures { IfOk result (λ r. r.items ≡ signals.Vector left ∷ signals.Vector right ∷ []) }
{
    let mut list = Vec::with_capacity(alloc, 2)?;
    list.push(Signal::Vector(left))?;
    list.push(Signal::Vector(right))?;
    Ok(list)
}

/// The words of the two sides of the difference of two words of one width, each a monomial's sum with the sign that
/// makes its coefficient small: what both words have in common is gone. `None` where a side is no known word.
fn word_sides(
    words: &mut Words,
    alloc: Global,
    s: &[Bit],
    t: &[Bit],
) -> Result<Option<Vec<Signal>>, Want>
    requires width { length s.now ≤ 64 }
    requires same { length t.now ≡ length s.now }
    ensures stand { OnOk result ((circuit : Plan) → word_bound s.now ≤ variables circuit →
        word_bound t.now ≤ variables circuit → AllStand circuit words.old → AllStand circuit words.new) }
    ensures equal { IfOk result (λ found. IfSome found (λ r. (circuit : Plan) → AllStand circuit words.new →
        AreEqualWhere circuit (signals.Vector s.now ∷ signals.Vector t.now ∷ []) r.items)) }
{
    let Some(first) = words.enter(alloc, s)? else {
        return Ok(None);
    };
    let Some(second) = words.enter(alloc, t)? else {
        return Ok(None);
    };
    let left = &words.at(first).sum;
    let right = &words.at(second).sum;
    if !are_few(&Op::BvSub, left, right) {
        return Ok(None);
    }
    let width = s.len() as u32;
    let difference = left.minus(alloc, width, right)?;
    let sides = difference.sides(alloc, width)?;
    let Some(positive) = words.word_of(alloc, &sides.left)? else {
        return Ok(None);
    };
    let Some(negative) = words.word_of(alloc, &sides.right)? else {
        return Ok(None);
    };
    let list = vectors(alloc, positive, negative)?;
    Ok(Some(list))
}

/// The same of two signals; `None` for truth values.
fn signal_sides(
    words: &mut Words,
    alloc: Global,
    s: &Signal,
    t: &Signal,
) -> Result<Option<Vec<Signal>>, Want>
    ensures stand { OnOk result ((circuit : Plan) → signal_bound s.now ≤ variables circuit →
        signal_bound t.now ≤ variables circuit → AllStand circuit words.old → AllStand circuit words.new) }
    ensures equal { IfOk result (λ found. IfSome found (λ r. (circuit : Plan) →
        AllStand circuit words.new → AreEqualWhere circuit (s.now ∷ t.now ∷ []) r.items)) }
{
    match (s, t) {
        (Signal::Vector(s), Signal::Vector(t)) => {
            if s.len() > 64 || t.len() != s.len() {
                return Ok(None);
            }
            let list = word_sides(words, alloc, s.as_slice(), t.as_slice())?;
            Ok(list)
        }
        _ => Ok(None),
    }
}

/// Whether the operator asks if its arguments are equal.
fn is_equality(op: &Op) -> bool {
    matches!(op, Op::Equal | Op::Distinct)
}

/// Arguments at which the operator has the value that it has at two signals, by the sides of their difference; `None`
/// where it doesn't ask for equality, or a side is no known word.
fn pair_sides(
    words: &mut Words,
    alloc: Global,
    op: &Op,
    s: &Signal,
    t: &Signal,
) -> Result<Option<Vec<Signal>>, Want>
    ensures stand { OnOk result ((circuit : Plan) → signal_bound s.now ≤ variables circuit →
        signal_bound t.now ≤ variables circuit → AllStand circuit words.old → AllStand circuit words.new) }
    ensures value { IfOk result (λ found. IfSome found (λ r. (circuit : Plan) →
        AllStand circuit words.new → HaveItsValue circuit op.now (s.now ∷ t.now ∷ []) r.items)) }
{
    let Some(sides) = signal_sides(words, alloc, s, t)? else {
        return Ok(None);
    };
    match op {
        Op::Equal => Ok(Some(sides)),
        Op::Distinct => Ok(Some(sides)),
        _ => Ok(None),
    }
}

/// Arguments at which an equality of two words has the same value: the sides of the normal form of their difference.
/// `None` for other operators, and where a side is no known word.
pub(crate) fn sides_of(
    words: &mut Words,
    alloc: Global,
    op: &Op,
    args: &[Signal],
) -> Result<Option<Vec<Signal>>, Want>
    ensures stand { OnOk result ((circuit : Plan) → signals_bound args.now ≤ variables circuit →
        AllStand circuit words.old → AllStand circuit words.new) }
    ensures value { IfOk result (λ found. IfSome found (λ r. (circuit : Plan) →
        AllStand circuit words.new → HaveItsValue circuit op.now args.now r.items)) }
{
    if !is_equality(op) {
        return Ok(None);
    }
    match args {
        [s, t] => Ok(pair_sides(words, alloc, op, s, t)?),
        _ => Ok(None),
    }
}
