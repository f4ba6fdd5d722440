// The circuits of the operators on truth values.
ghost use Rattle.std.specs.Prelude.{◌≡◌, ◌≤◌, ◌<◌, ◌+◌, ◌^◌, ℕ, Bool, map, length, OnOk, IfOk};
ghost use Rattle.std.specs.List.{list_all, list_any};
ghost use Rattle.sy_terms.specs.Values.{Truth, truth};
ghost use Rattle.sy_terms.specs.Operators.{implied, op_value};
ghost use Rattle.sy_terms.specs.declared.op.Op.TheVariants as ops;
ghost use Rattle.sy_meaning_words.specs.Vectors.{TakesSorts};
ghost use Rattle.sy_gates.specs.Circuits.{variables, FollowsPlan, GrownCircuit, bit_value, bit_bound, word_bound};
ghost use Rattle.sy_bits_operators.specs.Signals.{signal_value, signal_values, signal_sorts, signals_bound};

use crate::signal::Signal;
use std::alloc::Global;
use sy_gates::{Bit, Circuit, Joint};
use sy_seq::{Seq, Want};

/// The bits of truth values.
fn bits(alloc: Global, signals: &[Signal]) -> Result<Seq<Bit>, Want>
    ensures length { IfOk result (λ r. length r ≡ length signals.now) }
    ensures bound { IfOk result (λ r. word_bound r ≤ signals_bound signals.now) }
    ensures value { IfOk result (λ r. (v : ℕ → Bool) →
        map (λ b. bit_value v b) r ≡ map truth (signal_values v signals.now)) }
{
    let mut all = Seq::new(alloc);
    for i in 0..signals.len() {
        let signal = &signals[i];
        all.push(signal.bit())?;
    }
    Ok(all)
}

/// Whether each of the truth values is true.
pub(crate) fn all_true(
    circuit: &mut Circuit,
    alloc: Global,
    signals: &[Signal],
) -> Result<Bit, Want>
    requires inside { signals_bound signals.now ≤ variables circuit.old }
    requires room { variables circuit.old + length signals.now < 2 ^ 31 }
    ensures grown { GrownCircuit circuit.old circuit.new }
    ensures cost { OnOk result (variables circuit.new ≤ variables circuit.old + length signals.now) }
    ensures inside { IfOk result (λ r. bit_bound r ≤ variables circuit.new) }
    ensures value { IfOk result (λ r. (v : ℕ → Bool) →
        FollowsPlan v circuit.new → bit_value v r ≡ list_all truth (signal_values v signals.now)) }
{
    let bits = bits(alloc, signals)?;
    let bit = circuit.join_all(Joint::And, bits.as_slice())?;
    Ok(bit)
}

/// Whether some of the truth values is true.
pub(crate) fn any_true(
    circuit: &mut Circuit,
    alloc: Global,
    signals: &[Signal],
) -> Result<Bit, Want>
    requires inside { signals_bound signals.now ≤ variables circuit.old }
    requires room { variables circuit.old + length signals.now < 2 ^ 31 }
    ensures grown { GrownCircuit circuit.old circuit.new }
    ensures cost { OnOk result (variables circuit.new ≤ variables circuit.old + length signals.now) }
    ensures inside { IfOk result (λ r. bit_bound r ≤ variables circuit.new) }
    ensures value { IfOk result (λ r. (v : ℕ → Bool) →
        FollowsPlan v circuit.new → bit_value v r ≡ list_any truth (signal_values v signals.now)) }
{
    let bits = bits(alloc, signals)?;
    let bit = circuit.join_all(Joint::Or, bits.as_slice())?;
    Ok(bit)
}

/// Whether an odd number of the truth values is true, which is `xor` taken from the left.
pub(crate) fn exclusive(
    circuit: &mut Circuit,
    alloc: Global,
    signals: &[Signal],
) -> Result<Bit, Want>
    requires takes { TakesSorts ops.Xor (signal_sorts signals.now) }
    requires inside { signals_bound signals.now ≤ variables circuit.old }
    requires room { variables circuit.old + length signals.now < 2 ^ 31 }
    ensures grown { GrownCircuit circuit.old circuit.new }
    ensures cost { OnOk result (variables circuit.new ≤ variables circuit.old + length signals.now) }
    ensures inside { IfOk result (λ r. bit_bound r ≤ variables circuit.new) }
    ensures value { IfOk result (λ r. (v : ℕ → Bool) →
        FollowsPlan v circuit.new → Truth (bit_value v r) ≡ op_value ops.Xor (signal_values v signals.now)) }
{
    let bits = bits(alloc, signals)?;
    let bit = circuit.join_all(Joint::Xor, bits.as_slice())?;
    Ok(bit)
}

/// Whether the last value is true or one before it is false, which is `=>` taken from the right.
pub(crate) fn implied(circuit: &mut Circuit, alloc: Global, signals: &[Signal]) -> Result<Bit, Want>
    requires inside { signals_bound signals.now ≤ variables circuit.old }
    requires room { variables circuit.old + length signals.now < 2 ^ 31 }
    ensures grown { GrownCircuit circuit.old circuit.new }
    ensures cost { OnOk result (variables circuit.new ≤ variables circuit.old + length signals.now) }
    ensures inside { IfOk result (λ r. bit_bound r ≤ variables circuit.new) }
    ensures value { IfOk result (λ r. (v : ℕ → Bool) →
        FollowsPlan v circuit.new → bit_value v r ≡ implied (signal_values v signals.now)) }
{
    match signals.split_last() {
        Some((conclusion, premises)) => {
            let all = all_true(circuit, alloc, premises)?;
            let bit = circuit.or(conclusion.bit(), all.negated())?;
            Ok(bit)
        }
        None => Ok(Bit::Fixed(true)),
    }
}
