// Operators whose arguments' truth values are known.
ghost use Rattle.std.specs.Prelude.{◌≡◌, ◌∷◌, IfOk, true};
ghost use Rattle.std.specs.Option.{option_map};
ghost use Rattle.sy_terms.specs.Values.{Whole};
ghost use Rattle.sy_terms.specs.Theories.{in_core};
ghost use Rattle.sy_terms.specs.Denoted.{val_of, vals_of, sorts_of};
ghost use Rattle.sy_linear_known.specs.Sights as spec;

use crate::sight::{Node, Sight};
use std::alloc::Global;
use sy_meaning_core::core_value;
use sy_meaning_integers::IntTheory;
use sy_seq::{Seq, Want};
use sy_terms::{Op, Sort, Sorted, Theory, Value};
use sy_terms_operators::operator_sort;

/// All truth values, where all are known.
pub(crate) fn all_truths(alloc: Global, sights: &[Sight]) -> Result<Option<Seq<Value<i128>>>, Want>
    ensures { IfOk result (λ found. option_map (vals_of Whole) found ≡ spec.all_truths sights.now) }
{
    let mut values = Seq::new(alloc);
    for sight in sights {
        let Sight::Settled(truth) = sight else {
            return Ok(None);
        };
        values.push(Value::Truth(*truth))?;
    }
    Ok(Some(values))
}

/// The sorts of values.
fn sorts_of(alloc: Global, values: &[Value<i128>]) -> Result<Seq<Sort>, Want>
    ensures { IfOk result (λ sorts. sorts ≡ sorts_of Whole values.now) }
{
    let mut sorts = Seq::new(alloc);
    for value in values {
        sorts.push(IntTheory::value_sort(value))?;
    }
    Ok(sorts)
}

/// What is told of a truth value.
fn of_truth(value: &Value<i128>) -> Sight
    ensures { result ≡ spec.of_truth (val_of Whole value.now) }
{
    match value {
        Value::Truth(truth) => Sight::Settled(*truth),
        Value::Num(_) => Sight::Open,
    }
}

/// What is told of the operator at these values, where it takes them.
fn truth_at(alloc: Global, operator: &Op, values: &[Value<i128>]) -> Result<Sight, Want>
    requires { in_core operator.now ≡ true }
    ensures { IfOk result (λ s. s ≡ spec.truth_at operator.now (vals_of Whole values.now)) }
{
    let sorts = sorts_of(alloc, values)?;
    match operator_sort(operator, sorts.as_slice()) {
        Sorted::Is(_) => Ok(of_truth(&core_value(operator, values))),
        Sorted::Mismatch => Ok(Sight::Open),
        Sorted::BadWidth => Ok(Sight::Open),
    }
}

/// The operator's value where all arguments' truth values are known.
fn by_truths(alloc: Global, operator: &Op, sights: &[Sight]) -> Result<Option<Sight>, Want>
    requires { in_core operator.now ≡ true }
    ensures { IfOk result (λ told. told ≡ option_map (spec.truth_at operator.now) (spec.all_truths sights.now)) }
{
    match all_truths(alloc, sights)? {
        Some(values) => {
            let sight = truth_at(alloc, operator, values.as_slice())?;
            Ok(Some(sight))
        }
        None => Ok(None),
    }
}

/// What is told of the operator where all arguments' truth values are known.
pub(crate) fn evaluated(alloc: Global, operator: &Op, sights: &[Sight]) -> Result<Node, Want>
    requires { in_core operator.now ≡ true }
    ensures { IfOk result (λ n. n ≡ spec.evaluated operator.now (spec.all_truths sights.now)) }
{
    match by_truths(alloc, operator, sights)? {
        Some(sight) => Ok(Node::told(sight)),
        None => Ok(Node::told(Sight::Open)),
    }
}

/// What is told of the operator where all arguments' truth values are known, or else the comparison.
pub(crate) fn by_truths_or(
    alloc: Global,
    operator: &Op,
    sights: &[Sight],
    compared: Node,
) -> Result<Node, Want>
    requires { in_core operator.now ≡ true }
    ensures { IfOk result (λ n. n ≡ spec.by_truths_or operator.now (spec.all_truths sights.now) compared) }
{
    match by_truths(alloc, operator, sights) {
        Ok(Some(sight)) => {
            drop(compared);
            Ok(Node::told(sight))
        }
        Ok(None) => Ok(compared),
        Err(want) => {
            drop(compared);
            Err(want)
        }
    }
}
