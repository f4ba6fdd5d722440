// The operators of the theory Core.
ghost use Rattle.std.specs.Prelude.{◌≡◌, ◌<◌, true, length, slice_index_or};
ghost use Rattle.sy_terms.specs.Operators.{op_value};
ghost use Rattle.sy_terms.specs.Theories.{valid, fits, in_core};
ghost use Rattle.sy_terms.specs.Denoted.{val_of, vals_of, IsSorted};

use crate::equality::{all_distinct, all_same};
use crate::number::Number;
use crate::truths::{all_true, any_true, exclusive, implied};
use crate::values::is_true;
use sy_terms::{Op, Value};

/// The value at a place of the list.
fn value_at<N: Number>(values: &[Value<N>], place: usize) -> Value<N>
    requires { place < length values.now }
    ensures { result ≡ slice_index_or values.now place result }
{
    values[place]
}

/// The second value where the first is true, and otherwise the third.
fn chosen<N: Number>(values: &[Value<N>]) -> Value<N>
    requires { IsSorted Op.Ite (vals_of N.denotes values.now) }
    ensures value { val_of N.denotes result ≡ op_value Op.Ite (vals_of N.denotes values.now) }
    ensures valid { valid (val_of N.denotes result) ≡ true }
{
    if is_true(&value_at(values, 0)) {
        value_at(values, 1)
    } else {
        value_at(values, 2)
    }
}

/// Whether the operator belongs to the theory Core.
pub fn in_core(op: &Op) -> bool
    ensures { result ≡ in_core op.now }
{
    matches!(
        op,
        Op::Not | Op::And | Op::Or | Op::Xor | Op::Implies | Op::Equal | Op::Distinct | Op::Ite
    )
}

/// The value of one of Core's operators at arguments of sorts that it takes.
#[tactic(auto, unfolding(sy_terms::specs::Operators::op_value, sy_terms::specs::Theories::fits))]
pub fn core_value<N: Number>(op: &Op, arguments: &[Value<N>]) -> Value<N>
    requires core { in_core op.now ≡ true }
    requires sorted { IsSorted op.now (vals_of N.denotes arguments.now) }
    ensures value { val_of N.denotes result ≡ op_value op.now (vals_of N.denotes arguments.now) }
    ensures valid { valid (val_of N.denotes result) ≡ true }
    ensures fits { fits op.now (vals_of N.denotes arguments.now) ≡ true }
{
    match op {
        Op::Not => Value::Truth(!all_true(arguments)),
        Op::And => Value::Truth(all_true(arguments)),
        Op::Or => Value::Truth(any_true(arguments)),
        Op::Xor => Value::Truth(exclusive(arguments)),
        Op::Implies => Value::Truth(implied(arguments)),
        Op::Equal => Value::Truth(all_same(arguments)),
        Op::Distinct => Value::Truth(all_distinct(arguments)),
        Op::Ite => chosen(arguments),
        _ => unreachable!(),
    }
}
