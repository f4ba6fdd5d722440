// The sums of words that are joined bit by bit: two numbers add up to the bits that are true in both, counted twice,
// and those that are true in one.
ghost use Rattle.std.specs.Prelude.{
  ◌≡◌,
  ◌≤◌,
  ◌<◌,
  ◌+◌,
  ◌*◌,
  ◌^◌,
  ℕ,
  Bool,
  cond,
  bit_and,
  [],
  ◌∷◌,
  length,
  get_or,
  OnOk,
  IfOk,
  IfSome,
};
ghost use Rattle.sy_gates.specs.Circuits.{Plan, variables, word_bound, word_number};
ghost use Rattle.sy_bits_sums.specs.Polynomials.{total, Agree};
ghost use Rattle.sy_bits_operators.specs.declared.signal.Signal.TheVariants as signals;
ghost use Rattle.sy_bits_words.specs.declared.known.Known.{Known as SomeKnown};
ghost use Rattle.sy_bits_words.specs.Standing.{AllStand, IsSumOf, place_number, turned_number};

use crate::known::{is_turned, turned_word};
use crate::operations::are_few;
use crate::words::Words;
use std::alloc::Global;
use sy_bits_sums::{Sum, greatest};
use sy_gates::Bit;
use sy_seq::Want;
use sy_terms::Op;

/// The place of the bits that are true in two words, each of which may be turned before.
#[derive(Clone, Copy)]
struct Meet {
    place: u32,
    left: bool,
    right: bool,
}

/// The place of the bits that are true in two words of one width, where words that begin with a negation are turned: so
/// a word meets the other one's bits and their negations at one place. `None` where the table is full.
fn meeting(words: &mut Words, alloc: Global, s: &[Bit], t: &[Bit]) -> Result<Option<Meet>, Want>
    requires width { length s.now ≤ 64 }
    requires same { length t.now ≡ length s.now }
    ensures stand { OnOk result ((circuit : Plan) → word_bound s.now ≤ variables circuit →
        word_bound t.now ≤ variables circuit → AllStand circuit words.old → AllStand circuit words.new) }
    ensures longer { OnOk result (length words.old ≤ length words.new) }
    ensures kept { OnOk result ((i : ℕ) (d : SomeKnown) →
        i < length words.old → get_or words.new i d ≡ get_or words.old i d) }
    ensures within { IfOk result (λ found. IfSome found (λ m. m.place < length words.new)) }
    ensures number { IfOk result (λ found. IfSome found (λ m. (d : SomeKnown) (v : ℕ → Bool) →
        place_number v (get_or words.new m.place d) ≡ bit_and (turned_number (length s.now) m.left
        (word_number v s.now)) (turned_number (length s.now) m.right (word_number v t.now)))) }
{
    let left = is_turned(s);
    let right = is_turned(t);
    let first = turned_word(alloc, s, left)?;
    let second = turned_word(alloc, t, right)?;
    let Some(place) = words.enter_both(alloc, first.as_slice(), second.as_slice())? else {
        return Ok(None);
    };
    Ok(Some(Meet { place, left, right }))
}

/// The sum of a number of the width, turned or not.
fn turned_sum(alloc: Global, width: u32, sum: &Sum, turned: bool) -> Result<Sum, Want>
    requires { width ≤ 64 }
    ensures width { IfOk result (λ r. r.width ≡ width) }
    ensures value { IfOk result (λ r. (values : ℕ → ℕ) (n : ℕ) →
        n < 2 ^ width → Agree width (total values sum.now.monomials.items) n →
        Agree width (total values r.monomials.items) (turned_number width turned n)) }
{
    let ones = greatest(width);
    if turned {
        let most = Sum::constant(alloc, width, ones)?;
        let inverted = most.plus(alloc, width, sum, ones)?;
        return Ok(inverted);
    }
    let zero = Sum::constant(alloc, width, 0)?;
    let same = zero.plus(alloc, width, sum, 1)?;
    Ok(same)
}

/// What is left of a sum without a part of it; the part itself where it isn't to be taken away.
fn without(alloc: Global, width: u32, whole: &Sum, part: Sum, taken: bool) -> Result<Sum, Want>
    requires width { width ≤ 64 }
    requires part { part.width ≡ width }
    ensures width { IfOk result (λ r. r.width ≡ width) }
    ensures value { IfOk result (λ r. (values : ℕ → ℕ) (x y z : ℕ) →
        Agree width (total values whole.now.monomials.items) z → Agree width (total values part.monomials.items) y →
        cond taken (x + y) x ≡ cond taken z y → Agree width (total values r.monomials.items) x) }
{
    if taken {
        let rest = whole.minus(alloc, width, &part)?;
        return Ok(rest);
    }
    Ok(part)
}

/// The sum of the bits that are true in two words.
fn meet_sum(alloc: Global, width: u32, left: &Sum, right: &Sum, meet: &Meet) -> Result<Sum, Want>
    requires { width ≤ 64 }
    ensures width { IfOk result (λ r. r.width ≡ width) }
    ensures value { IfOk result (λ r. (values : ℕ → ℕ) (m n : ℕ) → m < 2 ^ width → n < 2 ^ width →
        Agree width (total values left.now.monomials.items) m → Agree width (total values right.now.monomials.items) n →
        values meet.now.place ≡ bit_and (turned_number width meet.now.left m) (turned_number width meet.now.right n) →
        Agree width (total values r.monomials.items) (bit_and m n)) }
{
    let place = Sum::value(alloc, width, meet.place)?;
    let first = turned_sum(alloc, width, left, meet.left)?;
    let inner = without(alloc, width, &first, place, meet.right)?;
    let outer = without(alloc, width, right, inner, meet.left)?;
    Ok(outer)
}

/// The sum of the bits that are true in one of two words at least.
fn either_sum(alloc: Global, width: u32, left: &Sum, right: &Sum, both: &Sum) -> Result<Sum, Want>
    requires { width ≤ 64 }
    ensures width { IfOk result (λ r. r.width ≡ width) }
    ensures value { IfOk result (λ r. (values : ℕ → ℕ) (x y m n : ℕ) →
        Agree width (total values left.now.monomials.items) m →
        Agree width (total values right.now.monomials.items) n → Agree width (total values both.now.monomials.items) y →
        x + y ≡ m + n → Agree width (total values r.monomials.items) x) }
{
    let added = left.plus(alloc, width, right, 1)?;
    let either = added.minus(alloc, width, both)?;
    Ok(either)
}

/// The sum of an operator that joins two words of one width bit by bit; `None` where it makes none.
pub(crate) fn joined_sum(
    words: &mut Words,
    alloc: Global,
    op: &Op,
    s: &[Bit],
    t: &[Bit],
) -> Result<Option<Sum>, Want>
    requires width { length s.now ≤ 64 }
    requires same { length t.now ≡ length s.now }
    ensures stand { OnOk result ((circuit : Plan) → word_bound s.now ≤ variables circuit →
        word_bound t.now ≤ variables circuit → AllStand circuit words.old → AllStand circuit words.new) }
    ensures sum { IfOk result (λ found. IfSome found (λ r. (circuit : Plan) → AllStand circuit words.new →
        IsSumOf circuit words.new op.now (signals.Vector s.now ∷ signals.Vector t.now ∷ []) r)) }
{
    let Some(first) = words.enter(alloc, s)? else {
        return Ok(None);
    };
    let Some(second) = words.enter(alloc, t)? else {
        return Ok(None);
    };
    let Some(meet) = meeting(words, alloc, s, t)? else {
        return Ok(None);
    };
    let left = &words.at(first).sum;
    let right = &words.at(second).sum;
    if !are_few(&Op::BvAdd, left, right) {
        return Ok(None);
    }
    let width = s.len() as u32;
    let both = meet_sum(alloc, width, left, right, &meet)?;
    let either = either_sum(alloc, width, left, right, &both)?;
    match op {
        Op::BvAnd => Ok(Some(both)),
        Op::BvOr => Ok(Some(either)),
        Op::BvXor => {
            let differ = either.minus(alloc, width, &both)?;
            Ok(Some(differ))
        }
        _ => Ok(None),
    }
}
