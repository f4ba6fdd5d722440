// The circuits of operators, where words with equal sums are one word.
ghost use Rattle.std.specs.Prelude.{◌≡◌, ◌≤◌, ◌<◌, ◌+◌, ◌^◌, ℕ, Bool, true, List, [], ◌∷◌, OnOk, IfOk};
ghost use Rattle.sy_terms.specs.Operators.{op_value};
ghost use Rattle.sy_terms.specs.Theories.{sort_of_value};
ghost use Rattle.sy_meaning_words.specs.Vectors.{TakesSorts, owned};
ghost use Rattle.sy_gates.specs.declared.gate.Bit.{Bit as SomeBit};
ghost use Rattle.sy_gates.specs.Circuits.{Plan, variables, FollowsPlan, GrownCircuit};
ghost use Rattle.sy_bits_operators.specs.declared.signal.Signal.TheVariants as signals;
ghost use Rattle.sy_bits_operators.specs.Signals.{
  signal_value,
  signal_values,
  signal_sort,
  signal_sorts,
  signal_bound,
  signals_bound,
  AllHaveSignals,
};
ghost use Rattle.sy_bits_operators.specs.Costs.{gates};
ghost use Rattle.sy_bits_words.specs.Standing.{StandsFor, AllStand, IsSumOf, Serves};

use crate::differences::product_difference;
use crate::division::divided;
use crate::equality::sides_of;
use crate::operations::sum_of;
use crate::words::Words;
use std::alloc::Global;
use sy_bits_operators::{Signal, applied as made};
use sy_bits_sums::Sum;
use sy_gates::Circuit;
use sy_seq::Want;
use sy_terms::Op;

/// Notes that a vector's word stands for a sum.
fn note(words: &mut Words, alloc: Global, signal: &Signal, sum: Sum) -> Result<(), Want>
    ensures { OnOk result ((circuit : Plan) → ((word : List SomeBit) → signal.now ≡ signals.Vector word →
        StandsFor circuit words.old word sum) → AllStand circuit words.old → AllStand circuit words.new) }
{
    match signal {
        Signal::Truth(_) => Ok(()),
        Signal::Vector(word) => {
            words.note(alloc, word.as_slice(), sum)?;
            Ok(())
        }
    }
}

/// The circuit of an operator on two signals of sorts that it takes, without a sum. Of a quotient and of a remainder it
/// is noted what sum the remainder stands for.
fn pair_unsummed(
    words: &mut Words,
    circuit: &mut Circuit,
    alloc: Global,
    op: &Op,
    args: &[Signal],
    s: &Signal,
    t: &Signal,
) -> Result<Signal, Want>
    requires ours { owned op.now ≡ true }
    requires two { args.now ≡ s.now ∷ t.now ∷ [] }
    requires takes { TakesSorts op.now (signal_sorts args.now) }
    requires sorts { AllHaveSignals (signal_sorts args.now) }
    requires inside { signals_bound args.now ≤ variables circuit.old }
    requires stand { AllStand circuit.old words.old }
    requires room { variables circuit.old + gates op.now (signal_sorts args.now) < 2 ^ 31 }
    ensures stand { OnOk result (AllStand circuit.new words.new) }
    ensures grown { GrownCircuit circuit.old circuit.new }
    ensures cost { OnOk result (variables circuit.new ≤ variables circuit.old + gates op.now (signal_sorts args.now)) }
    ensures serves { IfOk result (Serves circuit.new op.now args.now) }
{
    match (op, s, t) {
        (Op::BvUdiv, Signal::Vector(a), Signal::Vector(b)) => {
            let division = divided(words, circuit, alloc, a.as_slice(), b.as_slice())?;
            Ok(Signal::Vector(division.quotient))
        }
        (Op::BvUrem, Signal::Vector(a), Signal::Vector(b)) => {
            let division = divided(words, circuit, alloc, a.as_slice(), b.as_slice())?;
            Ok(Signal::Vector(division.remainder))
        }
        _ => {
            let signal = made(circuit, alloc, op, args)?;
            Ok(signal)
        }
    }
}

/// The circuit of an operator on signals of sorts that it takes, without a sum.
fn unsummed(
    words: &mut Words,
    circuit: &mut Circuit,
    alloc: Global,
    op: &Op,
    args: &[Signal],
) -> Result<Signal, Want>
    requires ours { owned op.now ≡ true }
    requires takes { TakesSorts op.now (signal_sorts args.now) }
    requires sorts { AllHaveSignals (signal_sorts args.now) }
    requires inside { signals_bound args.now ≤ variables circuit.old }
    requires stand { AllStand circuit.old words.old }
    requires room { variables circuit.old + gates op.now (signal_sorts args.now) < 2 ^ 31 }
    ensures stand { OnOk result (AllStand circuit.new words.new) }
    ensures grown { GrownCircuit circuit.old circuit.new }
    ensures cost { OnOk result (variables circuit.new ≤ variables circuit.old + gates op.now (signal_sorts args.now)) }
    ensures serves { IfOk result (Serves circuit.new op.now args.now) }
{
    match args {
        [s, t] => pair_unsummed(words, circuit, alloc, op, args, s, t),
        _ => {
            let signal = made(circuit, alloc, op, args)?;
            Ok(signal)
        }
    }
}

/// The circuit of an operator that has this sum, on signals of sorts that it takes. A product that is the difference of
/// two known words is made as that, which takes fewer gates.
fn made_of_sum(
    words: &Words,
    circuit: &mut Circuit,
    alloc: Global,
    op: &Op,
    args: &[Signal],
    sum: &Sum,
) -> Result<Signal, Want>
    requires ours { owned op.now ≡ true }
    requires takes { TakesSorts op.now (signal_sorts args.now) }
    requires sorts { AllHaveSignals (signal_sorts args.now) }
    requires inside { signals_bound args.now ≤ variables circuit.old }
    requires stand { AllStand circuit.old words.now }
    requires is { IsSumOf circuit.old words.now op.now args.now sum.now }
    requires room { variables circuit.old + gates op.now (signal_sorts args.now) < 2 ^ 31 }
    ensures grown { GrownCircuit circuit.old circuit.new }
    ensures cost { OnOk result (variables circuit.new ≤ variables circuit.old + gates op.now (signal_sorts args.now)) }
    ensures serves { IfOk result (Serves circuit.new op.now args.now) }
{
    if let Some((first, second)) = product_difference(words, alloc, op, args, sum)? {
        let word = circuit.sub(alloc, first.as_slice(), second.as_slice())?;
        return Ok(Signal::Vector(word));
    }
    let signal = made(circuit, alloc, op, args)?;
    Ok(signal)
}

/// The circuit of an operator on signals of sorts that it takes. Where a word with the same sum is known, its signal is
/// that word, and no gate is made.
fn summed(
    words: &mut Words,
    circuit: &mut Circuit,
    alloc: Global,
    op: &Op,
    args: &[Signal],
) -> Result<Signal, Want>
    requires ours { owned op.now ≡ true }
    requires takes { TakesSorts op.now (signal_sorts args.now) }
    requires sorts { AllHaveSignals (signal_sorts args.now) }
    requires inside { signals_bound args.now ≤ variables circuit.old }
    requires stand { AllStand circuit.old words.old }
    requires room { variables circuit.old + gates op.now (signal_sorts args.now) < 2 ^ 31 }
    ensures stand { OnOk result (AllStand circuit.new words.new) }
    ensures grown { GrownCircuit circuit.old circuit.new }
    ensures cost { OnOk result (variables circuit.new ≤ variables circuit.old + gates op.now (signal_sorts args.now)) }
    ensures inside { IfOk result (λ r. signal_bound r ≤ variables circuit.new) }
    ensures sort { IfOk result (λ r. (v : ℕ → Bool) →
        signal_sort r ≡ sort_of_value (op_value op.now (signal_values v args.now))) }
    ensures value { IfOk result (λ r. (v : ℕ → Bool) →
        FollowsPlan v circuit.new → signal_value v r ≡ op_value op.now (signal_values v args.now)) }
{
    let Some(sum) = sum_of(words, alloc, op, args)? else {
        let signal = unsummed(words, circuit, alloc, op, args)?;
        return Ok(signal);
    };
    if let Some(word) = words.word_of(alloc, &sum)? {
        return Ok(Signal::Vector(word));
    }
    let signal = made_of_sum(words, circuit, alloc, op, args, &sum)?;
    note(words, alloc, &signal, sum)?;
    Ok(signal)
}

/// The circuit of an operator on signals of sorts that it takes: its signal has the operator's value wherever
/// the circuit's gates are followed. Where a word with the same sum is known, it is that word, and no gate is made. Two
/// words are equal where the sides of the normal form of their difference are, if these are known words.
pub fn applied(
    words: &mut Words,
    circuit: &mut Circuit,
    alloc: Global,
    op: &Op,
    args: &[Signal],
) -> Result<Signal, Want>
    requires ours { owned op.now ≡ true }
    requires takes { TakesSorts op.now (signal_sorts args.now) }
    requires sorts { AllHaveSignals (signal_sorts args.now) }
    requires inside { signals_bound args.now ≤ variables circuit.old }
    requires stand { AllStand circuit.old words.old }
    requires room { variables circuit.old + gates op.now (signal_sorts args.now) < 2 ^ 31 }
    ensures stand { OnOk result (AllStand circuit.new words.new) }
    ensures grown { GrownCircuit circuit.old circuit.new }
    ensures cost { OnOk result (variables circuit.new ≤ variables circuit.old + gates op.now (signal_sorts args.now)) }
    ensures inside { IfOk result (λ r. signal_bound r ≤ variables circuit.new) }
    ensures sort { IfOk result (λ r. (v : ℕ → Bool) →
        signal_sort r ≡ sort_of_value (op_value op.now (signal_values v args.now))) }
    ensures value { IfOk result (λ r. (v : ℕ → Bool) →
        FollowsPlan v circuit.new → signal_value v r ≡ op_value op.now (signal_values v args.now)) }
{
    match sides_of(words, alloc, op, args)? {
        Some(sides) => {
            let signal = made(circuit, alloc, op, sides.as_slice())?;
            Ok(signal)
        }
        None => {
            let signal = summed(words, circuit, alloc, op, args)?;
            Ok(signal)
        }
    }
}
