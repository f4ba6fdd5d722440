// The signals of values and of variables.
ghost use Rattle.std.specs.Prelude.{◌≡◌, ℕ, Bool, true, IfOk};
ghost use Rattle.sy_terms.specs.Denoted.{val_of};
ghost use Rattle.sy_terms.specs.Theories.{sort_of_value};
ghost use Rattle.sy_meaning_words.specs.Vectors.{vector};
ghost use Rattle.sy_bits_operators.specs.Signals.{signal_value, signal_sort, signal_bound, has_signals};

use std::alloc::Global;
use sy_bits_operators::Signal;
use sy_gates::{Bit, constant, joined};
use sy_meaning_words::Word;
use sy_seq::Want;
use sy_terms::Value;

/// The signal of a value, whose bits are fixed.
pub(crate) fn constant_signal(alloc: Global, value: &Value<Word>) -> Result<Signal, Want>
    ensures bound { IfOk result (λ r. signal_bound r ≡ 0) }
    ensures sort { IfOk result (λ r. signal_sort r ≡ sort_of_value (val_of vector value.now)) }
    ensures has { IfOk result (λ r. has_signals (signal_sort r) ≡ true) }
    ensures value { IfOk result (λ r. (v : ℕ → Bool) → signal_value v r ≡ val_of vector value.now) }
{
    match value {
        Value::Truth(truth) => Ok(Signal::Truth(Bit::Fixed(*truth))),
        Value::Num(word) => {
            let bits = constant(alloc, usize::from(word.width()), word.bits())?;
            Ok(Signal::Vector(bits))
        }
    }
}

/// The same signal, in memory of its own.
pub(crate) fn copied(alloc: Global, signal: &Signal) -> Result<Signal, Want>
    ensures { IfOk result (λ r. r ≡ signal.now) }
{
    match signal {
        Signal::Truth(bit) => Ok(Signal::Truth(*bit)),
        Signal::Vector(word) => {
            let bits = joined(alloc, word.as_slice(), &[])?;
            Ok(Signal::Vector(bits))
        }
    }
}
