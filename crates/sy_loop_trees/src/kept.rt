// Where kept terms are true.
ghost use Rattle.std.specs.Prelude.{◌≡◌, map, IfOk};
ghost use Rattle.sy_terms.specs.Denoted.{val_of, vals_of};
ghost use Rattle.sy_terms.specs.Values as values;
ghost use Rattle.sy_bank_level.specs.Stored.{chosen_of};
ghost use Rattle.sy_loop_spec.specs.Trees.{truths};

use std::alloc::Global;
use sy_bank_level::Kept;
use sy_terms::{Seq, Theory, Value, Want};

/// A row for each of the kept terms, which says at which points it is true.
pub fn truth_rows<T: Theory>(alloc: Global, kept: &[&Kept<T>]) -> Result<Seq<Seq<bool>>, Want>
    ensures { IfOk result (λ rows. rows ≡ truths (chosen_of T.denotes kept.now)) }
{
    let mut rows = Seq::new(alloc);
    for kept in kept {
        let row = truth_row::<T>(alloc, kept.row.as_slice())?;
        rows.push(row)?;
    }
    Ok(rows)
}

/// Which of the values are true.
fn truth_row<T: Theory>(alloc: Global, row: &[Value<T::Num>]) -> Result<Seq<bool>, Want>
    ensures { IfOk result (λ truths. truths ≡ map values.truth (vals_of T.denotes row.now)) }
{
    let mut truths = Seq::new(alloc);
    for value in row {
        truths.push(truth::<T>(value))?;
    }
    Ok(truths)
}

/// Whether the value is true.
fn truth<T: Theory>(value: &Value<T::Num>) -> bool
    ensures { result ≡ values.truth (val_of T.denotes value.now) }
{
    match value {
        Value::Truth(truth) => *truth,
        Value::Num(_) => false,
    }
}
