// The assignment of a whole point.
ghost use Rattle.std.specs.Prelude.{◌≡◌, ◌<◌, ◌^◌, true, length, IfOk};
ghost use Rattle.std.specs.List.{list_all};
ghost use Rattle.sy_terms.specs.Values.{Whole};
ghost use Rattle.sy_terms.specs.Denoted.{val_of, vals_of};
ghost use Rattle.sy_linear_known.specs.Paths.{MeetsPath};
ghost use Rattle.sy_linear_known.specs.Right.{Assigns, is_linear_sort};
ghost use Rattle.sy_intsolve_paths_laws.specs.Paths.{IsPath};
ghost use Rattle.sy_intsolve_cuts.specs.Points.{IsPointOf, ValuesAreWhole};
ghost use Rattle.sy_intsolve_cuts.specs.Points as spec;

use std::alloc::Global;
use sy_frac::Frac;
use sy_linear_known::{Fact, given};
use sy_meaning_integers::IntTheory;
use sy_seq::{Seq, Want};
use sy_terms::{Sort, Value, Values};

/// The value of the variable of this number and sort: the point's number, or the truth value that the facts give, else
/// false.
fn value_of(facts: &[Fact], point: &[Frac], sort: Sort, number: u32) -> Value<i128>
    ensures { val_of Whole result ≡ spec.value_at_point facts.now point.now sort number }
{
    match sort {
        Sort::Bool => Value::Truth(given(number, facts).unwrap_or(false)),
        Sort::Int | Sort::Bits(_) => match point.get(number as usize) {
            Some(number) => Value::Num(number.num()),
            None => Value::Num(0),
        },
    }
}

/// The assignment of a whole point of a path: its numbers, and for each variable of truth values what the path gives,
/// else false. It meets the path. `Want` comes where memory runs out, and nowhere else.
pub fn values_of(
    alloc: Global,
    vars: &[Sort],
    facts: &[Fact],
    point: &[Frac],
) -> Result<Values<IntTheory>, Want>
    requires few { length vars.now < 2 ^ 31 }
    requires sorts { list_all is_linear_sort vars.now ≡ true }
    requires path { IsPath vars.now facts.now }
    requires at { IsPointOf vars.now facts.now point.now }
    requires whole { ValuesAreWhole point.now }
    ensures assigns { IfOk result (λ values. Assigns vars.now (vals_of Whole values)) }
    ensures meets { IfOk result (λ values. MeetsPath (vals_of Whole values) facts.now) }
{
    let mut values = Seq::new(alloc);
    let mut number = 0u32;
    for sort in vars {
        values.push(value_of(facts, point, *sort, number))?;
        number += 1;
    }
    Ok(values)
}
