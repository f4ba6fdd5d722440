// Quotients and remainders. A remainder is the dividend less the product of the quotient and the divisor, also where
// the divisor is 0, so it has a sum.
ghost use Rattle.std.specs.Prelude.{◌≡◌, ◌≤◌, ◌<◌, ◌+◌, ◌*◌, ◌^◌, length, OnOk, IfOk};
ghost use Rattle.sy_gates.specs.Circuits.{Plan, variables, GrownCircuit, word_bound};
ghost use Rattle.sy_bits_words.specs.Standing.{AllStand, IsDivided};

use crate::operations::{are_few, pair_sum};
use crate::words::Words;
use std::alloc::Global;
use sy_gates::{Bit, Circuit, Division};
use sy_seq::Want;
use sy_terms::Op;

/// Notes what sum the remainder stands for, where that has few monomials.
fn note_remainder(
    words: &mut Words,
    alloc: Global,
    a: &[Bit],
    b: &[Bit],
    division: &Division,
) -> Result<(), Want>
    requires most { length a.now ≤ 64 }
    requires divisor { length b.now ≡ length a.now }
    requires quotient { length division.now.quotient ≡ length a.now }
    ensures { OnOk result ((circuit : Plan) → IsDivided circuit a.now b.now division.now →
        AllStand circuit words.old → AllStand circuit words.new) }
{
    let quotient = division.quotient.as_slice();
    let Some(product) = pair_sum(words, alloc, &Op::BvMul, quotient, b)? else {
        return Ok(());
    };
    let Some(place) = words.enter(alloc, a)? else {
        return Ok(());
    };
    let dividend = &words.at(place).sum;
    if !are_few(&Op::BvSub, dividend, &product) {
        return Ok(());
    }
    let difference = dividend.minus(alloc, a.len() as u32, &product)?;
    words.note(alloc, division.remainder.as_slice(), difference)?;
    Ok(())
}

/// The quotient and the remainder of two words of one width, as [`Circuit::divide`] gives them.
pub(crate) fn divided(
    words: &mut Words,
    circuit: &mut Circuit,
    alloc: Global,
    a: &[Bit],
    b: &[Bit],
) -> Result<Division, Want>
    requires most { length a.now ≤ 64 }
    requires same { length b.now ≡ length a.now }
    requires left { word_bound a.now ≤ variables circuit.old }
    requires right { word_bound b.now ≤ variables circuit.old }
    requires room { variables circuit.old + 4 * (length a.now * (length a.now + 1)) < 2 ^ 31 }
    requires stand { AllStand circuit.old words.old }
    ensures stand { OnOk result (AllStand circuit.new words.new) }
    ensures grown { GrownCircuit circuit.old circuit.new }
    ensures cost { OnOk result (variables circuit.new ≤
        variables circuit.old + 4 * (length a.now * (length a.now + 1))) }
    ensures divided { IfOk result (IsDivided circuit.new a.now b.now) }
{
    let division = circuit.divide(alloc, a, b)?;
    note_remainder(words, alloc, a, b, &division)?;
    Ok(division)
}
