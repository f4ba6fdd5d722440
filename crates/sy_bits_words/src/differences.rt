// Sums that are the difference of two known words.
ghost use Rattle.std.specs.Prelude.{◌≡◌, ◌≤◌, ◌<◌, ◌*◌, length, IfOk, IfSome};
ghost use Rattle.sy_gates.specs.Circuits.{Plan};
ghost use Rattle.sy_bits_operators.specs.Signals.{signal_sorts};
ghost use Rattle.sy_bits_operators.specs.Costs.{gates};
ghost use Rattle.sy_bits_words.specs.Standing.{AllStand, IsDifference};

use crate::words::Words;
use std::alloc::Global;
use sy_bits_operators::Signal;
use sy_bits_sums::Sum;
use sy_gates::{Bit, joined};
use sy_seq::{Seq, Want};
use sy_terms::Op;

/// Among how many words of the table, the last ones, a difference is looked for.
const MOST_TRIED: usize = 4_096;

/// Whether the sum has the only monomial of the other one, with any coefficient.
fn has_only_monomial(sum: &Sum, other: &Sum) -> bool {
    if other.monomials.len() != 1 {
        return false;
    }
    let factors = other.monomials[0].factors.as_slice();
    for monomial in sum.monomials.as_slice() {
        if monomial.factors.as_slice() == factors {
            return true;
        }
    }
    false
}

/// A known word that is the sum more than the word at the place, and that word; `None` where there is none.
fn above(
    words: &Words,
    alloc: Global,
    place: usize,
    sum: &Sum,
) -> Result<Option<(Seq<Bit>, Seq<Bit>)>, Want>
    requires place { place < length words.now }
    requires width { sum.now.width ≤ 64 }
    ensures { IfOk result (λ found. IfSome found (λ pair. (circuit : Plan) →
        AllStand circuit words.now → IsDifference circuit words.now pair.0 pair.1 sum.now)) }
{
    let known = words.at(place);
    if known.sum.width != sum.width || !has_only_monomial(&known.sum, sum) {
        return Ok(None);
    }
    let total = known.sum.plus(alloc, sum.width, sum, 1)?;
    let Some(first) = words.word_of(alloc, &total)? else {
        return Ok(None);
    };
    let second = joined(alloc, known.word.as_slice(), &[])?;
    Ok(Some((first, second)))
}

/// Two known words whose difference is a sum of one monomial; `None` where none are found.
fn difference_of(
    words: &Words,
    alloc: Global,
    sum: &Sum,
) -> Result<Option<(Seq<Bit>, Seq<Bit>)>, Want>
    requires { sum.now.width ≤ 64 }
    ensures { IfOk result (λ found. IfSome found (λ pair. (circuit : Plan) →
        AllStand circuit words.now → IsDifference circuit words.now pair.0 pair.1 sum.now)) }
{
    for place in words.len().saturating_sub(MOST_TRIED)..words.len() {
        if let Some(found) = above(words, alloc, place, sum)? {
            return Ok(Some(found));
        }
    }
    Ok(None)
}

/// Two known words whose difference is the sum of a product; `None` where none are found, and for other operators.
pub(crate) fn product_difference(
    words: &Words,
    alloc: Global,
    op: &Op,
    args: &[Signal],
    sum: &Sum,
) -> Result<Option<(Seq<Bit>, Seq<Bit>)>, Want>
    ensures difference { IfOk result (λ found. IfSome found (λ pair. (circuit : Plan) →
        AllStand circuit words.now → IsDifference circuit words.now pair.0 pair.1 sum.now)) }
    ensures cost { IfOk result (λ found.
        IfSome found (λ pair. 3 * sum.now.width ≤ gates op.now (signal_sorts args.now))) }
{
    match (op, args) {
        (Op::BvMul, [Signal::Vector(s), Signal::Vector(_)]) => {
            if s.len() == 0 || s.len() > 64 || sum.width != s.len() as u32 {
                return Ok(None);
            }
            let found = difference_of(words, alloc, sum)?;
            Ok(found)
        }
        _ => Ok(None),
    }
}
