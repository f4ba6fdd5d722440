// The signals of a query's variables.
ghost use Rattle.std.specs.Prelude.{◌≡◌, ◌≤◌, ◌<◌, ◌+◌, ◌^◌, List, Bool, true, take, drop, length, IfOk};
ghost use Rattle.sy_gates.specs.Circuits.{word_number, word_bound};
ghost use Rattle.sy_gates.specs.Models.{values_of};
ghost use Rattle.sy_bits_operators.specs.Signals.{signal_value, signal_values, signal_sort, signal_sorts, signal_bound, signals_bound, sort_width, total_width, has_signals, AllHaveSignals};
ghost use Rattle.sy_bits_circuit.specs.Assignments.{number_of_bits, value_of_bits, assignment};

use crate::width::width_of;
use std::alloc::Global;
use sy_bits_operators::Signal;
use sy_clauses::Lit;
use sy_gates::Bit;
use sy_seq::{Seq, Want};
use sy_terms::Sort;

/// The signals of variables, and how many bits they have together.
#[derive(Drop)]
pub(crate) struct Inputs {
    pub signals: Vec<Signal>,
    pub count: u32,
}

/// The bit of a variable of the circuit.
fn input_bit(var: u32) -> Bit
    ensures { result ≡ Bit.Of (record { var = var; positive = true }) }
{
    Bit::Of(Lit {
        var,
        positive: true,
    })
}

/// The word of so many variables of the circuit, from the first on.
fn input_word(alloc: Global, first: u32, width: u32) -> Result<Seq<Bit>, Want>
    requires { first + width < 2 ^ 31 }
    ensures width { IfOk result (λ r. length r ≡ width) }
    ensures inside { IfOk result (λ r. word_bound r ≤ first + width) }
    ensures value { IfOk result (λ r. (m : List Bool) →
        word_number (values_of m) r ≡ number_of_bits (take width (drop first m))) }
{
    let mut word = Seq::new(alloc);
    for i in 0..width {
        word.push(input_bit(first + i))?;
    }
    Ok(word)
}

/// The signal of a value of the sort, whose bits are variables of the circuit, from the first on.
fn input_signal(alloc: Global, sort: Sort, first: u32) -> Result<Signal, Want>
    requires has { has_signals sort ≡ true }
    requires room { first + sort_width sort < 2 ^ 31 }
    ensures sort { IfOk result (λ r. signal_sort r ≡ sort) }
    ensures inside { IfOk result (λ r. signal_bound r ≤ first + sort_width sort) }
    ensures value { IfOk result (λ r. (m : List Bool) →
        signal_value (values_of m) r ≡ value_of_bits sort (take (sort_width sort) (drop first m))) }
{
    match sort {
        Sort::Bool => Ok(Signal::Truth(input_bit(first))),
        Sort::Int => unreachable!(),
        Sort::Bits(width) => {
            let bits = input_word(alloc, first, u32::from(width))?;
            Ok(Signal::Vector(bits))
        }
    }
}

/// The signals of values of the sorts, whose bits are the circuit's first variables, one value's after the other's.
pub(crate) fn input_signals(alloc: Global, sorts: &[Sort]) -> Result<Inputs, Want>
    requires has { AllHaveSignals sorts.now }
    requires room { total_width sorts.now < 2 ^ 31 }
    ensures count { IfOk result (λ r. r.count ≡ total_width sorts.now) }
    ensures sorts { IfOk result (λ r. signal_sorts r.signals.items ≡ sorts.now) }
    ensures inside { IfOk result (λ r. signals_bound r.signals.items ≤ r.count) }
    ensures values { IfOk result (λ r. (m : List Bool) →
        signal_values (values_of m) r.signals.items ≡ assignment sorts.now m) }
{
    let mut signals = Vec::new(alloc);
    let mut count = 0;
    for sort in sorts {
        let signal = input_signal(alloc, *sort, count)?;
        signals.push(signal)?;
        count += width_of(*sort);
    }
    Ok(Inputs { signals, count })
}
