// The values that bits stand for.
ghost use Rattle.std.specs.Prelude.{◌≡◌, ◌≤◌, true, length, IfOk};
ghost use Rattle.sy_terms.specs.Denoted.{val_of, vals_of};
ghost use Rattle.sy_meaning_words.specs.Vectors.{vector};
ghost use Rattle.sy_bits_operators.specs.Signals.{sort_width, total_width, has_signals, AllHaveSignals};
ghost use Rattle.sy_bits_circuit.specs.Assignments.{number_of_bits, value_of_bits, assignment};

use crate::width::width_of;
use std::alloc::Global;
use sy_meaning_words::{BvTheory, Word};
use sy_seq::{Seq, Want};
use sy_terms::{Sort, Value, Values};

/// The number of the bits, the least first.
fn read_number(bits: &[bool]) -> u64
    requires { length bits.now ≤ 64 }
    ensures { result ≡ number_of_bits bits.now }
{
    let mut number = 0;
    for (i, bit) in bits.iter().enumerate() {
        if *bit {
            number += 1 << i;
        }
    }
    number
}

/// The value of the sort that the bits stand for.
fn read_value(sort: Sort, bits: &[bool]) -> Value<Word>
    requires has { has_signals sort ≡ true }
    requires long { length bits.now ≡ sort_width sort }
    ensures { val_of vector result ≡ value_of_bits sort bits.now }
{
    match sort {
        Sort::Bool => Value::Truth(bits[0]),
        Sort::Int => unreachable!(),
        Sort::Bits(width) => match Word::new(width, read_number(bits)) {
            Some(word) => Value::Num(word),
            None => unreachable!(),
        },
    }
}

/// The values of the sorts that the first bits stand for, one value's after the other's.
pub(crate) fn read_values(
    alloc: Global,
    sorts: &[Sort],
    bits: &[bool],
) -> Result<Values<BvTheory>, Want>
    requires has { AllHaveSignals sorts.now }
    requires long { total_width sorts.now ≤ length bits.now }
    ensures { IfOk result (λ r. vals_of vector r ≡ assignment sorts.now bits.now) }
{
    let mut values = Seq::new(alloc);
    let mut rest = bits;
    for sort in sorts {
        let (front, back) = rest.split_at(width_of(*sort) as usize);
        values.push(read_value(*sort, front))?;
        rest = back;
    }
    Ok(values)
}
