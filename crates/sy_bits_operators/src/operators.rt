// The circuits of the operators, at arguments that they take.
ghost use Rattle.std.specs.Prelude.{◌≡◌, ◌≤◌, ◌<◌, ◌+◌, ◌^◌, ℕ, Bool, true, cond, length, OnOk, IfOk};
ghost use Rattle.sy_terms.specs.Operators.{op_value};
ghost use Rattle.sy_terms.specs.Theories.{sort_of_value, in_core};
ghost use Rattle.sy_meaning_words.specs.Vectors.{TakesSorts, owned};
ghost use Rattle.sy_gates.specs.Circuits.{variables, FollowsPlan, GrownCircuit, bit_value, bit_bound};
ghost use Rattle.sy_bits_operators.specs.Signals.{signal_value, signal_values, signal_sort, signal_sorts, signal_bound, signals_bound, sort_width, AllHaveSignals};
ghost use Rattle.sy_bits_operators.specs.Costs.{core_gates, gates};

use crate::equality::{all_distinct, all_same};
use crate::signal::Signal;
use crate::truths::{all_true, any_true, exclusive, implied};
use crate::vectors::vector;
use std::alloc::Global;
use sy_gates::{Bit, Circuit};
use sy_meaning_core::in_core;
use sy_seq::Want;
use sy_terms::Op;

/// The signal `a` where `test` is true, and `b` elsewhere.
fn choice(
    circuit: &mut Circuit,
    alloc: Global,
    test: Bit,
    a: &Signal,
    b: &Signal,
) -> Result<Signal, Want>
    requires sort { signal_sort a.now ≡ signal_sort b.now }
    requires test { bit_bound test ≤ variables circuit.old }
    requires left { signal_bound a.now ≤ variables circuit.old }
    requires right { signal_bound b.now ≤ variables circuit.old }
    requires room { variables circuit.old + sort_width (signal_sort a.now) < 2 ^ 31 }
    ensures grown { GrownCircuit circuit.old circuit.new }
    ensures cost { OnOk result (variables circuit.new ≤ variables circuit.old + sort_width (signal_sort a.now)) }
    ensures inside { IfOk result (λ r. signal_bound r ≤ variables circuit.new) }
    ensures sort { IfOk result (λ r. signal_sort r ≡ signal_sort a.now) }
    ensures value { IfOk result (λ r. (v : ℕ → Bool) → FollowsPlan v circuit.new →
        signal_value v r ≡ cond (bit_value v test) (signal_value v a.now) (signal_value v b.now)) }
{
    match (a, b) {
        (Signal::Truth(x), Signal::Truth(y)) => {
            let bit = circuit.choose(test, *x, *y)?;
            Ok(Signal::Truth(bit))
        }
        (Signal::Vector(s), Signal::Vector(t)) => {
            let word = circuit.choose_word(alloc, test, s.as_slice(), t.as_slice())?;
            Ok(Signal::Vector(word))
        }
        _ => unreachable!(),
    }
}

/// The circuit of one of Core's operators.
#[tactic(auto, unfolding(sy_terms::specs::Operators::op_value, sy_terms::specs::Sorts::sort_of))]
fn core(circuit: &mut Circuit, alloc: Global, op: &Op, args: &[Signal]) -> Result<Signal, Want>
    requires core { in_core op.now ≡ true }
    requires takes { TakesSorts op.now (signal_sorts args.now) }
    requires inside { signals_bound args.now ≤ variables circuit.old }
    requires room { variables circuit.old + core_gates op.now (length args.now) (signal_sorts args.now) < 2 ^ 31 }
    ensures grown { GrownCircuit circuit.old circuit.new }
    ensures cost { OnOk result (variables circuit.new ≤
        variables circuit.old + core_gates op.now (length args.now) (signal_sorts args.now)) }
    ensures inside { IfOk result (λ r. signal_bound r ≤ variables circuit.new) }
    ensures sort { IfOk result (λ r. (v : ℕ → Bool) →
        signal_sort r ≡ sort_of_value (op_value op.now (signal_values v args.now))) }
    ensures value { IfOk result (λ r. (v : ℕ → Bool) →
        FollowsPlan v circuit.new → signal_value v r ≡ op_value op.now (signal_values v args.now)) }
{
    match op {
        Op::Not => Ok(Signal::Truth(all_true(circuit, alloc, args)?.negated())),
        Op::And => Ok(Signal::Truth(all_true(circuit, alloc, args)?)),
        Op::Or => Ok(Signal::Truth(any_true(circuit, alloc, args)?)),
        Op::Xor => Ok(Signal::Truth(exclusive(circuit, alloc, args)?)),
        Op::Implies => Ok(Signal::Truth(implied(circuit, alloc, args)?)),
        Op::Equal => Ok(Signal::Truth(all_same(circuit, args)?)),
        Op::Distinct => Ok(Signal::Truth(all_distinct(circuit, args)?)),
        Op::Ite => Ok(chosen(circuit, alloc, args)?),
        _ => unreachable!(),
    }
}

/// The second signal where the first is true, and otherwise the third.
#[tactic(auto, using(crate::proofs::Choices::choice_steps))]
fn chosen(circuit: &mut Circuit, alloc: Global, args: &[Signal]) -> Result<Signal, Want>
    requires takes { TakesSorts Op.Ite (signal_sorts args.now) }
    requires inside { signals_bound args.now ≤ variables circuit.old }
    requires room { variables circuit.old + core_gates Op.Ite (length args.now) (signal_sorts args.now) < 2 ^ 31 }
    ensures grown { GrownCircuit circuit.old circuit.new }
    ensures cost { OnOk result (variables circuit.new ≤
        variables circuit.old + core_gates Op.Ite (length args.now) (signal_sorts args.now)) }
    ensures inside { IfOk result (λ r. signal_bound r ≤ variables circuit.new) }
    ensures sort { IfOk result (λ r. (v : ℕ → Bool) →
        signal_sort r ≡ sort_of_value (op_value Op.Ite (signal_values v args.now))) }
    ensures value { IfOk result (λ r. (v : ℕ → Bool) →
        FollowsPlan v circuit.new → signal_value v r ≡ op_value Op.Ite (signal_values v args.now)) }
{
    let test = args[0].bit();
    let signal = choice(circuit, alloc, test, &args[1], &args[2])?;
    Ok(signal)
}

/// The circuit of an operator on signals of sorts that it takes: its signal has the operator's value wherever
/// the circuit's gates are followed.
#[tactic(auto, using(crate::proofs::Theories::applied_steps))]
pub fn applied(
    circuit: &mut Circuit,
    alloc: Global,
    op: &Op,
    args: &[Signal],
) -> Result<Signal, Want>
    requires ours { owned op.now ≡ true }
    requires takes { TakesSorts op.now (signal_sorts args.now) }
    requires sorts { AllHaveSignals (signal_sorts args.now) }
    requires inside { signals_bound args.now ≤ variables circuit.old }
    requires room { variables circuit.old + gates op.now (signal_sorts args.now) < 2 ^ 31 }
    ensures grown { GrownCircuit circuit.old circuit.new }
    ensures cost { OnOk result (variables circuit.new ≤ variables circuit.old + gates op.now (signal_sorts args.now)) }
    ensures inside { IfOk result (λ r. signal_bound r ≤ variables circuit.new) }
    ensures sort { IfOk result (λ r. (v : ℕ → Bool) →
        signal_sort r ≡ sort_of_value (op_value op.now (signal_values v args.now))) }
    ensures value { IfOk result (λ r. (v : ℕ → Bool) →
        FollowsPlan v circuit.new → signal_value v r ≡ op_value op.now (signal_values v args.now)) }
{
    if in_core(op) {
        let signal = core(circuit, alloc, op, args)?;
        Ok(signal)
    } else {
        let signal = vector(circuit, alloc, op, args)?;
        Ok(signal)
    }
}
