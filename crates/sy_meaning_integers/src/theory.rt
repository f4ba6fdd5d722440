// The theory as generic code takes it.
ghost use Rattle.std.specs.Prelude.{◌≡◌};
ghost use Rattle.sy_meaning_integers.specs.Found.{applied_whole};
ghost use Rattle.sy_terms.specs.Theories.{in_ints};

use crate::order::{Ge, Gt, Le, Lt, in_order};
use crate::steps::{Minus, Plus, Quotient, Times, from_left};
use crate::unary::{absolute, modulus, negated};
use sy_meaning_core::{core_value, in_core};
use sy_terms::{Applied, Op, Sort, Sorted, Theory, Value};
use sy_terms_operators::operator_sort;

/// The theory of the logic LIA: the operators of SMT-LIB's theories Core and Ints, with `div`, `mod` and `abs`.
/// A number is an `i128`, which stands for itself. `div` leaves no negative remainder, `x div 0` is 0 and `x mod 0` is
/// x.
/// `apply` takes no memory, and answers `OutOfRange` exactly where a value or a partial value lies outside `-2^127` to
/// `2^127 - 1`.
#[derive(Clone, Copy, Debug, PartialEq, Eq, PartialOrd, Ord, Hash)]
pub struct IntTheory;

impl Theory for IntTheory {
    type Num = i128;

    ghost use Rattle.sy_terms.specs.Values.{Whole};
    ghost use Rattle.sy_meaning_integers.specs.Lia as lia;

    ghost denotes = { λ n. Whole n };

    ghost owned = { lia.owned };

    ghost numeric = { lia.numeric };

    ghost one_to_one = { lia.one_to_one };

    ghost equal = { lia.equal };

    ghost no_truth = { lia.no_truth };

    ghost sorted = { lia.sorted };

    ghost core = { lia.core };

    ghost negation = { lia.negation };

    fn owns(op: &Op) -> bool {
        in_core(op) || in_ints(op)
    }

    fn sort_of(op: &Op, args: &[Sort]) -> Sorted {
        operator_sort(op, args)
    }

    #[tactic(auto, unfolding(sy_terms::specs::Operators::op_value, sy_terms::specs::Theories::fits, sy_terms::specs::Sorts::sort_of))]
    fn apply(op: &Op, args: &[Value<i128>]) -> Applied<i128> {
        match op {
            Op::Neg => applied(negated(args)),
            Op::Abs => applied(absolute(args)),
            Op::Sub => applied(from_left::<Minus>(args)),
            Op::Add => applied(from_left::<Plus>(args)),
            Op::Mul => applied(from_left::<Times>(args)),
            Op::Div => applied(from_left::<Quotient>(args)),
            Op::Mod => Applied::Is(Value::Num(modulus(args))),
            Op::Le => Applied::Is(Value::Truth(in_order::<Le>(args))),
            Op::Lt => Applied::Is(Value::Truth(in_order::<Lt>(args))),
            Op::Ge => Applied::Is(Value::Truth(in_order::<Ge>(args))),
            Op::Gt => Applied::Is(Value::Truth(in_order::<Gt>(args))),
            _ => Applied::Is(core_value(op, args)),
        }
    }

    fn apply_each(op: &Op, values: &mut [Value<i128>], others: &[Value<i128>]) -> Option<usize> {
        for place in 0..values.len() {
            let value = values[place];
            let other = others[place];
            match IntTheory::apply(op, &[value, other]) {
                Applied::Is(found) => values[place] = found,
                Applied::OutOfRange => return Some(place),
            }
        }
        None
    }

    fn value_sort(v: &Value<i128>) -> Sort {
        match v {
            Value::Truth(_) => Sort::Bool,
            Value::Num(_) => Sort::Int,
        }
    }

    fn of_number(sort: Sort, n: i128) -> Option<i128> {
        match sort {
            Sort::Int => Some(n),
            _ => None,
        }
    }

    fn number(n: i128) -> i128 {
        n
    }
}

/// Whether the operator belongs to the theory Ints.
fn in_ints(op: &Op) -> bool
    ensures { result ≡ in_ints op.now }
{
    matches!(
        op,
        Op::Neg
            | Op::Sub
            | Op::Add
            | Op::Mul
            | Op::Div
            | Op::Mod
            | Op::Abs
            | Op::Le
            | Op::Lt
            | Op::Ge
            | Op::Gt
    )
}

/// The number, or that it is out of range.
fn applied(number: Option<i128>) -> Applied<i128>
    ensures { result ≡ applied_whole number }
{
    match number {
        Some(n) => Applied::Is(Value::Num(n)),
        None => Applied::OutOfRange,
    }
}
