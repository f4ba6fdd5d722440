// The circuits of equality.
ghost use Rattle.std.specs.Prelude.{◌≡◌, ◌≤◌, ◌<◌, ◌+◌, ◌*◌, ◌^◌, ℕ, Bool, true, not, length, OnOk, IfOk};
ghost use Rattle.std.specs.List.{list_all};
ghost use Rattle.sy_terms.specs.Values.{same, neighbours, all_pairs, to_all};
ghost use Rattle.sy_terms.specs.Sorts.{same_sort};
ghost use Rattle.sy_gates.specs.Circuits.{variables, FollowsPlan, GrownCircuit, bit_value, bit_bound};
ghost use Rattle.sy_bits_operators.specs.Signals.{signal_value, signal_values, signal_sort, signal_sorts, signal_bound, signals_bound, sort_width, are_alike};
ghost use Rattle.sy_bits_operators.specs.Costs.{same_gates, first_width};

use crate::signal::Signal;
use sy_gates::{Bit, Circuit};
use sy_seq::Want;

/// Whether two signals of one sort have the same value.
fn same(circuit: &mut Circuit, a: &Signal, b: &Signal) -> Result<Bit, Want>
    requires sort { signal_sort a.now ≡ signal_sort b.now }
    requires left { signal_bound a.now ≤ variables circuit.old }
    requires right { signal_bound b.now ≤ variables circuit.old }
    requires room { variables circuit.old + 2 * sort_width (signal_sort a.now) < 2 ^ 31 }
    ensures grown { GrownCircuit circuit.old circuit.new }
    ensures cost { OnOk result (variables circuit.new ≤ variables circuit.old + 2 * sort_width (signal_sort a.now)) }
    ensures inside { IfOk result (λ r. bit_bound r ≤ variables circuit.new) }
    ensures value { IfOk result (λ r. (v : ℕ → Bool) →
        FollowsPlan v circuit.new → bit_value v r ≡ same (signal_value v a.now) (signal_value v b.now)) }
{
    match (a, b) {
        (Signal::Truth(x), Signal::Truth(y)) => {
            let differ = circuit.xor(*x, *y)?;
            Ok(differ.negated())
        }
        (Signal::Vector(s), Signal::Vector(t)) => {
            let bit = circuit.equal(s.as_slice(), t.as_slice())?;
            Ok(bit)
        }
        _ => unreachable!(),
    }
}

/// Whether the value is the same as each of the others.
fn agrees(circuit: &mut Circuit, signal: &Signal, others: &[Signal]) -> Result<Bit, Want>
    requires sorts { list_all (same_sort (signal_sort signal.now)) (signal_sorts others.now) ≡ true }
    requires left { signal_bound signal.now ≤ variables circuit.old }
    requires right { signals_bound others.now ≤ variables circuit.old }
    requires room { variables circuit.old + length others.now * same_gates (sort_width (signal_sort signal.now)) <
        2 ^ 31 }
    ensures grown { GrownCircuit circuit.old circuit.new }
    ensures cost { OnOk result (variables circuit.new ≤
        variables circuit.old + length others.now * same_gates (sort_width (signal_sort signal.now))) }
    ensures inside { IfOk result (λ r. bit_bound r ≤ variables circuit.new) }
    ensures value { IfOk result (λ r. (v : ℕ → Bool) → FollowsPlan v circuit.new →
        bit_value v r ≡ list_all (same (signal_value v signal.now)) (signal_values v others.now)) }
{
    let mut all = Bit::Fixed(true);
    for i in 0..others.len() {
        let other = &others[i];
        let same = same(circuit, signal, other)?;
        all = circuit.and(all, same)?;
    }
    Ok(all)
}

/// Whether the value is the same as none of the others.
fn differs(circuit: &mut Circuit, signal: &Signal, others: &[Signal]) -> Result<Bit, Want>
    requires sorts { list_all (same_sort (signal_sort signal.now)) (signal_sorts others.now) ≡ true }
    requires left { signal_bound signal.now ≤ variables circuit.old }
    requires right { signals_bound others.now ≤ variables circuit.old }
    requires room { variables circuit.old + length others.now * same_gates (sort_width (signal_sort signal.now)) <
        2 ^ 31 }
    ensures grown { GrownCircuit circuit.old circuit.new }
    ensures cost { OnOk result (variables circuit.new ≤
        variables circuit.old + length others.now * same_gates (sort_width (signal_sort signal.now))) }
    ensures inside { IfOk result (λ r. bit_bound r ≤ variables circuit.new) }
    ensures value { IfOk result (λ r. (v : ℕ → Bool) → FollowsPlan v circuit.new →
        bit_value v r ≡ to_all (λ x y. not (same x y)) (signal_value v signal.now) (signal_values v others.now)) }
{
    let mut all = Bit::Fixed(true);
    for i in 0..others.len() {
        let other = &others[i];
        let same = same(circuit, signal, other)?;
        all = circuit.and(all, same.negated())?;
    }
    Ok(all)
}

/// Whether each value is the same as the one after it, and so all are.
pub(crate) fn all_same(circuit: &mut Circuit, signals: &[Signal]) -> Result<Bit, Want>
    requires sorts { are_alike (signal_sorts signals.now) ≡ true }
    requires inside { signals_bound signals.now ≤ variables circuit.old }
    requires room { variables circuit.old + length signals.now * same_gates (first_width (signal_sorts signals.now)) <
        2 ^ 31 }
    ensures grown { GrownCircuit circuit.old circuit.new }
    ensures cost { OnOk result (variables circuit.new ≤
        variables circuit.old + length signals.now * same_gates (first_width (signal_sorts signals.now))) }
    ensures inside { IfOk result (λ r. bit_bound r ≤ variables circuit.new) }
    ensures value { IfOk result (λ r. (v : ℕ → Bool) →
        FollowsPlan v circuit.new → bit_value v r ≡ neighbours same (signal_values v signals.now)) }
{
    match signals.split_first() {
        Some((first, rest)) => {
            let all = agrees(circuit, first, rest)?;
            Ok(all)
        }
        None => Ok(Bit::Fixed(true)),
    }
}

/// Whether no two values are the same.
pub(crate) fn all_distinct(circuit: &mut Circuit, signals: &[Signal]) -> Result<Bit, Want>
    requires sorts { are_alike (signal_sorts signals.now) ≡ true }
    requires inside { signals_bound signals.now ≤ variables circuit.old }
    requires room { variables circuit.old + length
        signals.now * (length signals.now * same_gates (first_width (signal_sorts signals.now))) < 2 ^ 31 }
    ensures grown { GrownCircuit circuit.old circuit.new }
    ensures cost { OnOk result (variables circuit.new ≤ variables
        circuit.old + length signals.now * (length signals.now * same_gates (first_width (signal_sorts signals.now)))) }
    ensures inside { IfOk result (λ r. bit_bound r ≤ variables circuit.new) }
    ensures value { IfOk result (λ r. (v : ℕ → Bool) →
        FollowsPlan v circuit.new → bit_value v r ≡ all_pairs (λ x y. not (same x y)) (signal_values v signals.now)) }
{
    let mut all = Bit::Fixed(true);
    for i in 0..signals.len() {
        let apart = differs(circuit, &signals[i], &signals[i + 1..])?;
        all = circuit.and(all, apart)?;
    }
    Ok(all)
}
