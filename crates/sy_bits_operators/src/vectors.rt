// The circuits of the operators on vectors, at arguments that they take.
ghost use Rattle.std.specs.Prelude.{◌≡◌, ◌≤◌, ◌<◌, ◌+◌, ◌*◌, ◌^◌, ℕ, Bool, true, [], ◌∷◌, length, OnOk, IfOk};
ghost use Rattle.sy_terms.specs.Values.{Bits};
ghost use Rattle.sy_terms.specs.Operators.{op_value};
ghost use Rattle.sy_terms.specs.Theories.{sort_of_value};
ghost use Rattle.sy_terms.specs.declared.sort.Sort.TheVariants as sorts;
ghost use Rattle.sy_meaning_words.specs.Vectors.{in_vectors, TakesSorts, TakesMany};
ghost use Rattle.sy_gates.specs.Circuits.{variables, FollowsPlan, GrownCircuit, word_bound, word_number};
ghost use Rattle.sy_bits_operators.specs.Signals.{signal_value, signal_values, signal_sort, signal_sorts, signal_bound, signals_bound, AllHaveSignals};
ghost use Rattle.sy_bits_operators.specs.Costs.{single_gates, pair_gates, vector_gates};

use crate::alike::same_width;
use crate::signal::Signal;
use std::alloc::Global;
use sy_gates::{
    Bit, Circuit, extended, inverted, joined, part, repeated, rotated_down, rotated_up, top,
};
use sy_seq::{Seq, Want};
use sy_terms::Op;

/// The circuit of an operator on one vector.
#[tactic(auto, unfolding(sy_terms::specs::Operators::op_value, sy_terms::specs::Sorts::sort_of))]
fn single(circuit: &mut Circuit, alloc: Global, op: &Op, s: &[Bit]) -> Result<Seq<Bit>, Want>
    requires ours { in_vectors op.now ≡ true }
    requires takes { TakesSorts op.now (sorts.Bits (length s.now) ∷ []) }
    requires least { 1 ≤ length s.now }
    requires most { length s.now ≤ 64 }
    requires inside { word_bound s.now ≤ variables circuit.old }
    requires room { variables circuit.old + single_gates op.now (length s.now) < 2 ^ 31 }
    ensures grown { GrownCircuit circuit.old circuit.new }
    ensures cost { OnOk result (variables circuit.new ≤ variables circuit.old + single_gates op.now (length s.now)) }
    ensures inside { IfOk result (λ r. word_bound r ≤ variables circuit.new) }
    ensures sort { IfOk result (λ r. (v : ℕ → Bool) →
        sorts.Bits (length r) ≡ sort_of_value (op_value op.now (Bits (length s.now) (word_number v s.now) ∷ []))) }
    ensures value { IfOk result (λ r. (v : ℕ → Bool) → FollowsPlan v circuit.new →
        Bits (length r) (word_number v r) ≡ op_value op.now (Bits (length s.now) (word_number v s.now) ∷ [])) }
{
    match *op {
        Op::BvNot => Ok(inverted(alloc, s)?),
        Op::BvNeg => Ok(circuit.neg(alloc, s)?),
        Op::Extract(high, low) => Ok(part(alloc, s, usize::from(low), usize::from(high) + 1)?),
        Op::Repeat(copies) => Ok(repeated(alloc, s, usize::from(copies))?),
        Op::ZeroExtend(by) => Ok(extended(alloc, s, usize::from(by), Bit::Fixed(false))?),
        Op::SignExtend(by) => Ok(extended(alloc, s, usize::from(by), top(s))?),
        Op::RotateLeft(by) => Ok(rotated_up(alloc, s, usize::from(by) % s.len())?),
        Op::RotateRight(by) => Ok(rotated_down(alloc, s, usize::from(by) % s.len())?),
        _ => unreachable!(),
    }
}

/// The circuit of an operator on two vectors.
#[tactic(auto, unfolding(sy_terms::specs::Operators::op_value))]
fn pair(circuit: &mut Circuit, alloc: Global, op: &Op, s: &[Bit], t: &[Bit]) -> Result<Signal, Want>
    requires ours { in_vectors op.now ≡ true }
    requires takes { TakesSorts op.now (sorts.Bits (length s.now) ∷ sorts.Bits (length t.now) ∷ []) }
    requires least { 1 ≤ length s.now }
    requires most { length s.now ≤ 64 }
    requires left { word_bound s.now ≤ variables circuit.old }
    requires right { word_bound t.now ≤ variables circuit.old }
    requires room { variables circuit.old + pair_gates op.now (length s.now) < 2 ^ 31 }
    ensures grown { GrownCircuit circuit.old circuit.new }
    ensures cost { OnOk result (variables circuit.new ≤ variables circuit.old + pair_gates op.now (length s.now)) }
    ensures inside { IfOk result (λ r. signal_bound r ≤ variables circuit.new) }
    ensures sort { IfOk result (λ r. (v : ℕ → Bool) → signal_sort r ≡ sort_of_value (op_value op.now
        (Bits (length s.now) (word_number v s.now) ∷ Bits (length t.now) (word_number v t.now) ∷ []))) }
    ensures value { IfOk result (λ r. (v : ℕ → Bool) → FollowsPlan v circuit.new → signal_value v r ≡
        op_value op.now (Bits (length s.now) (word_number v s.now) ∷ Bits (length t.now) (word_number v t.now) ∷ [])) }
{
    match op {
        Op::Concat => {
            let word = joined(alloc, t, s)?;
            Ok(Signal::Vector(word))
        }
        _ => {
            let signal = same_width(circuit, alloc, op, s, t)?;
            Ok(signal)
        }
    }
}

/// The circuit of an operator that takes many vectors from the left.
fn folded(
    circuit: &mut Circuit,
    alloc: Global,
    op: &Op,
    first: &[Bit],
    rest: &[Signal],
) -> Result<Signal, Want>
    requires ours { in_vectors op.now ≡ true }
    requires takes { TakesMany op.now (sorts.Bits (length first.now) ∷ signal_sorts rest.now) }
    requires least { 1 ≤ length first.now }
    requires most { length first.now ≤ 64 }
    requires left { word_bound first.now ≤ variables circuit.old }
    requires right { signals_bound rest.now ≤ variables circuit.old }
    requires room { variables circuit.old + length rest.now * pair_gates op.now (length first.now) < 2 ^ 31 }
    ensures grown { GrownCircuit circuit.old circuit.new }
    ensures cost { OnOk result (variables circuit.new ≤
        variables circuit.old + length rest.now * pair_gates op.now (length first.now)) }
    ensures inside { IfOk result (λ r. signal_bound r ≤ variables circuit.new) }
    ensures sort { IfOk result (λ r. signal_sort r ≡ sorts.Bits (length first.now)) }
    ensures value { IfOk result (λ r. (v : ℕ → Bool) → FollowsPlan v circuit.new → signal_value v r ≡
        op_value op.now (Bits (length first.now) (word_number v first.now) ∷ signal_values v rest.now)) }
{
    let mut total = Signal::Vector(joined(alloc, first, &[])?);
    for i in 0..rest.len() {
        let next = &rest[i];
        total = same_width(circuit, alloc, op, total.word(), next.word())?;
    }
    Ok(total)
}

/// The circuit of an operator on vectors, at arguments that it takes.
pub(crate) fn vector(
    circuit: &mut Circuit,
    alloc: Global,
    op: &Op,
    args: &[Signal],
) -> Result<Signal, Want>
    requires ours { in_vectors op.now ≡ true }
    requires takes { TakesSorts op.now (signal_sorts args.now) }
    requires sorts { AllHaveSignals (signal_sorts args.now) }
    requires inside { signals_bound args.now ≤ variables circuit.old }
    requires room { variables circuit.old + vector_gates op.now (signal_sorts args.now) < 2 ^ 31 }
    ensures grown { GrownCircuit circuit.old circuit.new }
    ensures cost { OnOk result (variables circuit.new ≤
        variables circuit.old + vector_gates op.now (signal_sorts args.now)) }
    ensures inside { IfOk result (λ r. signal_bound r ≤ variables circuit.new) }
    ensures sort { IfOk result (λ r. (v : ℕ → Bool) →
        signal_sort r ≡ sort_of_value (op_value op.now (signal_values v args.now))) }
    ensures value { IfOk result (λ r. (v : ℕ → Bool) →
        FollowsPlan v circuit.new → signal_value v r ≡ op_value op.now (signal_values v args.now)) }
{
    match args {
        [] => unreachable!(),
        [s] => {
            let word = single(circuit, alloc, op, s.word())?;
            Ok(Signal::Vector(word))
        }
        [s, t] => Ok(pair(circuit, alloc, op, s.word(), t.word())?),
        [first, rest @ ..] => Ok(folded(circuit, alloc, op, first.word(), rest)?),
    }
}
