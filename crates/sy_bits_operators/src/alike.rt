// The circuits of the operators on two vectors of one width.
ghost use Rattle.std.specs.Prelude.{◌≡◌, ◌≢◌, ◌≤◌, ◌<◌, ◌+◌, ◌^◌, ℕ, Bool, true, false, [], ◌∷◌, length, OnOk, IfOk};
ghost use Rattle.sy_terms.specs.Values.{Truth, Bits};
ghost use Rattle.sy_terms.specs.Operators.{op_value};
ghost use Rattle.sy_terms.specs.Theories.{sort_of_value};
ghost use Rattle.sy_terms.specs.declared.op.Op.TheVariants as ops;
ghost use Rattle.sy_terms.specs.declared.sort.Sort.TheVariants as sorts;
ghost use Rattle.sy_meaning_words.specs.Vectors.{in_vectors, TakesSorts};
ghost use Rattle.sy_gates.specs.Circuits.{variables, FollowsPlan, GrownCircuit, bit_value, bit_bound, word_bound, word_number};
ghost use Rattle.sy_bits_operators.specs.Signals.{signal_value, signal_sort, signal_bound};
ghost use Rattle.sy_bits_operators.specs.Costs.{pair_gates};
ghost use Rattle.sy_bits_operators.specs.Kinds.{is_bitwise, is_order};

use crate::signal::Signal;
use std::alloc::Global;
use sy_gates::{Bit, Circuit, Joint, Order};
use sy_seq::{Seq, Want};
use sy_terms::Op;

/// Whether the operator joins two vectors bit by bit.
fn is_bitwise(op: &Op) -> bool
    ensures { result ≡ is_bitwise op.now }
{
    matches!(
        op,
        Op::BvAnd | Op::BvOr | Op::BvXor | Op::BvNand | Op::BvNor | Op::BvXnor
    )
}

/// Whether the operator asks how two vectors stand in order.
fn is_order(op: &Op) -> bool
    ensures { result ≡ is_order op.now }
{
    matches!(
        op,
        Op::BvUlt
            | Op::BvUle
            | Op::BvUgt
            | Op::BvUge
            | Op::BvSlt
            | Op::BvSle
            | Op::BvSgt
            | Op::BvSge
    )
}

/// The circuit of an operator that joins two vectors of one width bit by bit.
#[tactic(auto, unfolding(sy_terms::specs::Operators::op_value))]
fn bitwise(
    circuit: &mut Circuit,
    alloc: Global,
    op: &Op,
    s: &[Bit],
    t: &[Bit],
) -> Result<Seq<Bit>, Want>
    requires ours { is_bitwise op.now ≡ true }
    requires same { length t.now ≡ length s.now }
    requires left { word_bound s.now ≤ variables circuit.old }
    requires right { word_bound t.now ≤ variables circuit.old }
    requires room { variables circuit.old + pair_gates op.now (length s.now) < 2 ^ 31 }
    ensures grown { GrownCircuit circuit.old circuit.new }
    ensures cost { OnOk result (variables circuit.new ≤ variables circuit.old + pair_gates op.now (length s.now)) }
    ensures inside { IfOk result (λ r. word_bound r ≤ variables circuit.new) }
    ensures sort { IfOk result (λ r. (v : ℕ → Bool) → sorts.Bits (length r) ≡ sort_of_value (op_value op.now
        (Bits (length s.now) (word_number v s.now) ∷ Bits (length t.now) (word_number v t.now) ∷ []))) }
    ensures value { IfOk result (λ r. (v : ℕ → Bool) → FollowsPlan v circuit.new → Bits (length r) (word_number v r) ≡
        op_value op.now (Bits (length s.now) (word_number v s.now) ∷ Bits (length t.now) (word_number v t.now) ∷ [])) }
{
    match op {
        Op::BvAnd => circuit.bitwise(alloc, Joint::And, s, t),
        Op::BvOr => circuit.bitwise(alloc, Joint::Or, s, t),
        Op::BvXor => circuit.bitwise(alloc, Joint::Xor, s, t),
        Op::BvNand => circuit.bitwise_inverted(alloc, Joint::And, s, t),
        Op::BvNor => circuit.bitwise_inverted(alloc, Joint::Or, s, t),
        Op::BvXnor => circuit.bitwise_inverted(alloc, Joint::Xor, s, t),
        _ => unreachable!(),
    }
}

/// The circuit of an operator that asks how two vectors of one width stand in order.
#[tactic(auto, unfolding(sy_terms::specs::Operators::op_value))]
fn ordered(circuit: &mut Circuit, alloc: Global, op: &Op, s: &[Bit], t: &[Bit]) -> Result<Bit, Want>
    requires ours { is_order op.now ≡ true }
    requires same { length t.now ≡ length s.now }
    requires least { 1 ≤ length s.now }
    requires left { word_bound s.now ≤ variables circuit.old }
    requires right { word_bound t.now ≤ variables circuit.old }
    requires room { variables circuit.old + pair_gates op.now (length s.now) < 2 ^ 31 }
    ensures grown { GrownCircuit circuit.old circuit.new }
    ensures cost { OnOk result (variables circuit.new ≤ variables circuit.old + pair_gates op.now (length s.now)) }
    ensures inside { IfOk result (λ r. bit_bound r ≤ variables circuit.new) }
    ensures sort { IfOk result (λ r. (v : ℕ → Bool) → sorts.Bool ≡ sort_of_value (op_value op.now
        (Bits (length s.now) (word_number v s.now) ∷ Bits (length t.now) (word_number v t.now) ∷ []))) }
    ensures value { IfOk result (λ r. (v : ℕ → Bool) → FollowsPlan v circuit.new → Truth (bit_value v r) ≡
        op_value op.now (Bits (length s.now) (word_number v s.now) ∷ Bits (length t.now) (word_number v t.now) ∷ [])) }
{
    match op {
        Op::BvUlt => circuit.compare(alloc, Order::Less, s, t),
        Op::BvUle => circuit.compare(alloc, Order::AtMost, s, t),
        Op::BvUgt => circuit.compare(alloc, Order::Greater, s, t),
        Op::BvUge => circuit.compare(alloc, Order::AtLeast, s, t),
        Op::BvSlt => circuit.signed_compare(alloc, Order::Less, s, t),
        Op::BvSle => circuit.signed_compare(alloc, Order::AtMost, s, t),
        Op::BvSgt => circuit.signed_compare(alloc, Order::Greater, s, t),
        Op::BvSge => circuit.signed_compare(alloc, Order::AtLeast, s, t),
        _ => unreachable!(),
    }
}

/// The circuit of an operator that makes a vector of two numbers of one width.
#[tactic(auto, unfolding(sy_terms::specs::Operators::op_value, sy_terms::specs::Sorts::sort_of))]
fn numeric(
    circuit: &mut Circuit,
    alloc: Global,
    op: &Op,
    s: &[Bit],
    t: &[Bit],
) -> Result<Seq<Bit>, Want>
    requires ours { in_vectors op.now ≡ true }
    requires apart { op.now ≢ ops.Concat }
    requires number { is_bitwise op.now ≡ false }
    requires vector { is_order op.now ≡ false }
    requires same { length t.now ≡ length s.now }
    requires takes { TakesSorts op.now (sorts.Bits (length s.now) ∷ sorts.Bits (length t.now) ∷ []) }
    requires least { 1 ≤ length s.now }
    requires most { length s.now ≤ 64 }
    requires left { word_bound s.now ≤ variables circuit.old }
    requires right { word_bound t.now ≤ variables circuit.old }
    requires room { variables circuit.old + pair_gates op.now (length s.now) < 2 ^ 31 }
    ensures grown { GrownCircuit circuit.old circuit.new }
    ensures cost { OnOk result (variables circuit.new ≤ variables circuit.old + pair_gates op.now (length s.now)) }
    ensures inside { IfOk result (λ r. word_bound r ≤ variables circuit.new) }
    ensures sort { IfOk result (λ r. (v : ℕ → Bool) → sorts.Bits (length r) ≡ sort_of_value (op_value op.now
        (Bits (length s.now) (word_number v s.now) ∷ Bits (length t.now) (word_number v t.now) ∷ []))) }
    ensures value { IfOk result (λ r. (v : ℕ → Bool) → FollowsPlan v circuit.new → Bits (length r) (word_number v r) ≡
        op_value op.now (Bits (length s.now) (word_number v s.now) ∷ Bits (length t.now) (word_number v t.now) ∷ [])) }
{
    match op {
        Op::BvAdd => circuit.add(alloc, s, t),
        Op::BvSub => circuit.sub(alloc, s, t),
        Op::BvMul => circuit.mul(alloc, s, t),
        Op::BvUdiv => Ok(circuit.divide(alloc, s, t)?.quotient),
        Op::BvUrem => Ok(circuit.divide(alloc, s, t)?.remainder),
        Op::BvSdiv => circuit.signed_quotient(alloc, s, t),
        Op::BvSrem => circuit.signed_remainder(alloc, s, t),
        Op::BvSmod => circuit.signed_modulo(alloc, s, t),
        Op::BvShl => circuit.shift_up(alloc, s, t),
        Op::BvLshr => circuit.shift_down(alloc, s, t),
        Op::BvAshr => circuit.signed_shift_down(alloc, s, t),
        Op::BvComp => circuit.comp(alloc, s, t),
        _ => unreachable!(),
    }
}

/// The circuit of an operator on two vectors of one width.
pub(crate) fn same_width(
    circuit: &mut Circuit,
    alloc: Global,
    op: &Op,
    s: &[Bit],
    t: &[Bit],
) -> Result<Signal, Want>
    requires ours { in_vectors op.now ≡ true }
    requires apart { op.now ≢ ops.Concat }
    requires same { length t.now ≡ length s.now }
    requires takes { TakesSorts op.now (sorts.Bits (length s.now) ∷ sorts.Bits (length t.now) ∷ []) }
    requires least { 1 ≤ length s.now }
    requires most { length s.now ≤ 64 }
    requires left { word_bound s.now ≤ variables circuit.old }
    requires right { word_bound t.now ≤ variables circuit.old }
    requires room { variables circuit.old + pair_gates op.now (length s.now) < 2 ^ 31 }
    ensures grown { GrownCircuit circuit.old circuit.new }
    ensures cost { OnOk result (variables circuit.new ≤ variables circuit.old + pair_gates op.now (length s.now)) }
    ensures inside { IfOk result (λ r. signal_bound r ≤ variables circuit.new) }
    ensures sort { IfOk result (λ r. (v : ℕ → Bool) → signal_sort r ≡ sort_of_value (op_value op.now
        (Bits (length s.now) (word_number v s.now) ∷ Bits (length t.now) (word_number v t.now) ∷ []))) }
    ensures value { IfOk result (λ r. (v : ℕ → Bool) → FollowsPlan v circuit.new → signal_value v r ≡
        op_value op.now (Bits (length s.now) (word_number v s.now) ∷ Bits (length t.now) (word_number v t.now) ∷ [])) }
{
    if is_bitwise(op) {
        let word = bitwise(circuit, alloc, op, s, t)?;
        return Ok(Signal::Vector(word));
    }
    if is_order(op) {
        let bit = ordered(circuit, alloc, op, s, t)?;
        return Ok(Signal::Truth(bit));
    }
    let word = numeric(circuit, alloc, op, s, t)?;
    Ok(Signal::Vector(word))
}
