// The circuits of terms.
ghost use Rattle.std.specs.Prelude.{◌≡◌, ◌≤◌, ◌<◌, ◌+◌, ◌*◌, ◌^◌, ℕ, Bool, true, [], Some, OnOk, IfOk};
ghost use Rattle.sy_terms.specs.Denoted.{expr_of, exprs_of};
ghost use Rattle.sy_terms.specs.Fitting.{sort_in, sorts_in};
ghost use Rattle.sy_terms.specs.Meaning.{meaning, meanings};
ghost use Rattle.sy_meaning_words.specs.Vectors.{vector};
ghost use Rattle.sy_gates.specs.Circuits.{variables, FollowsPlan, GrownCircuit};
ghost use Rattle.sy_bits_operators.specs.Signals.{signal_value, signal_values, signal_sort, signal_sorts, signal_bound, signals_bound, sort_width, total_width, has_signals, AllHaveSignals};
ghost use Rattle.sy_bits_words.specs.Standing.{AllStand};
ghost use Rattle.sy_bits_circuit.specs.Fitting.{scope, TermHasSort, HaveSorts, most_gates, all_most_gates};

use crate::leaves::{constant_signal, copied};
use std::alloc::Global;
use sy_bits_operators::Signal;
use sy_bits_words::{Words, applied};
use sy_gates::Circuit;
use sy_meaning_words::BvTheory;
use sy_seq::Want;
use sy_terms::{Term, Terms};

/// The signal of a term that calls no function, where the values in force have these signals: wherever the circuit's
/// gates are followed, its value is the term's. Values that a `let` binds are encoded once; during the call their
/// signals stand after the given ones. A word whose sum is that of a word in `words` is this word. `Want` exactly where
/// memory is refused.
#[cycle(signals)]
pub fn signal_of(
    words: &mut Words,
    circuit: &mut Circuit,
    alloc: Global,
    signals: &mut Vec<Signal>,
    term: &Term<BvTheory>,
) -> Result<Signal, Want>
    requires fits { TermHasSort (signal_sorts signals.old.items) (expr_of vector term.now) }
    requires sorts { AllHaveSignals (signal_sorts signals.old.items) }
    requires inside { signals_bound signals.old.items ≤ variables circuit.old }
    requires stand { AllStand circuit.old words.old }
    requires room { variables circuit.old + most_gates (signal_sorts signals.old.items) (expr_of vector term.now) <
        2 ^ 31 }
    ensures kept { OnOk result (signals.new.items ≡ signals.old.items) }
    ensures stand { OnOk result (AllStand circuit.new words.new) }
    ensures grown { GrownCircuit circuit.old circuit.new }
    ensures cost { IfOk result (λ r. variables circuit.new + 5 * sort_width (signal_sort r) ≤
        variables circuit.old + most_gates (signal_sorts signals.old.items) (expr_of vector term.now)) }
    ensures inside { IfOk result (λ r. signal_bound r ≤ variables circuit.new) }
    ensures sort { IfOk result (λ r. sort_in scope (signal_sorts signals.old.items) (expr_of vector term.now) ≡
        Some (signal_sort r)) }
    ensures has { IfOk result (λ r. has_signals (signal_sort r) ≡ true) }
    ensures value { IfOk result (λ r. (v : ℕ → Bool) → FollowsPlan v circuit.new →
        signal_value v r ≡ meaning [] [] (signal_values v signals.old.items) (expr_of vector term.now)) }
{
    match term {
        Term::Const(value) => {
            let signal = constant_signal(alloc, value)?;
            Ok(signal)
        }
        Term::Var(position) => {
            let signal = copied(alloc, &signals[*position as usize])?;
            Ok(signal)
        }
        Term::App(operator, arguments) => {
            let found = signals_of(words, circuit, alloc, signals, arguments)?;
            let signal = applied(words, circuit, alloc, operator, found.as_slice())?;
            Ok(signal)
        }
        Term::Call(_, _) => unreachable!(),
        Term::Let(bound, inner) => {
            let mut found = signals_of(words, circuit, alloc, signals, bound)?;
            let outer = signals.len();
            signals.append(&mut found)?;
            let signal = signal_of(words, circuit, alloc, signals, inner)?;
            signals.truncate(outer);
            Ok(signal)
        }
    }
}

/// The signals of terms, as `signal_of` gives them one by one.
#[cycle(signals)]
pub fn signals_of(
    words: &mut Words,
    circuit: &mut Circuit,
    alloc: Global,
    signals: &mut Vec<Signal>,
    terms: &Terms<BvTheory>,
) -> Result<Vec<Signal>, Want>
    requires fit { HaveSorts (signal_sorts signals.old.items) (exprs_of vector terms.now.items.items) }
    requires sorts { AllHaveSignals (signal_sorts signals.old.items) }
    requires inside { signals_bound signals.old.items ≤ variables circuit.old }
    requires stand { AllStand circuit.old words.old }
    requires room { variables circuit.old + all_most_gates (signal_sorts signals.old.items)
        (exprs_of vector terms.now.items.items) < 2 ^ 31 }
    ensures kept { OnOk result (signals.new.items ≡ signals.old.items) }
    ensures stand { OnOk result (AllStand circuit.new words.new) }
    ensures grown { GrownCircuit circuit.old circuit.new }
    ensures cost { IfOk result (λ rs. variables circuit.new + 5 * total_width (signal_sorts rs.items) ≤ variables
        circuit.old + all_most_gates (signal_sorts signals.old.items) (exprs_of vector terms.now.items.items)) }
    ensures inside { IfOk result (λ rs. signals_bound rs.items ≤ variables circuit.new) }
    ensures sorts { IfOk result (λ rs. sorts_in scope (signal_sorts signals.old.items)
        (exprs_of vector terms.now.items.items) ≡ Some (signal_sorts rs.items)) }
    ensures have { IfOk result (λ rs. AllHaveSignals (signal_sorts rs.items)) }
    ensures value { IfOk result (λ rs. (v : ℕ → Bool) → FollowsPlan v circuit.new → signal_values v rs.items ≡
        meanings [] [] (signal_values v signals.old.items) (exprs_of vector terms.now.items.items)) }
{
    let mut found = Vec::with_capacity(alloc, terms.len())?;
    for term in terms.as_slice() {
        let signal = signal_of(words, circuit, alloc, signals, term)?;
        found.push(signal)?;
    }
    Ok(found)
}
