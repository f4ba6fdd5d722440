// The operators' values at arguments that they take.
ghost use Rattle.std.specs.Prelude.{◌≡◌, ◌≢◌, [], ◌∷◌, true};
ghost use Rattle.sy_terms.specs.Operators.{op_value};
ghost use Rattle.sy_terms.specs.Theories.{sort_of_value};
ghost use Rattle.sy_terms.specs.Denoted.{val_of, vals_of, sorts_of, IsSorted};
ghost use Rattle.sy_terms.specs.declared.op.Op.TheVariants as ops;
ghost use Rattle.sy_terms.specs.declared.sort.Sort.TheVariants as sorts;
ghost use Rattle.sy_meaning_words.specs.Vectors.{vector, owned, in_vectors, is_bits, TakesSorts, TakesMany};

use crate::arithmetic::{difference, negated, product, sum};
use crate::bitwise::{and, inverted, nand, nor, or, xnor, xor};
use crate::division::{quotient, remainder, signed_modulus, signed_quotient, signed_remainder};
use crate::orders::{at_most, compared, less, signed_less};
use crate::shifts::{shifted_left, shifted_right, shifted_right_signed};
use crate::structure::{
    extracted, joined, repeated, rotated_left, rotated_right, sign_extended, zero_extended,
};
use crate::word::Word;
use sy_meaning_core::{core_value, in_core};
use sy_terms::{Op, Value};

/// The vector that a value is.
pub(crate) fn word_of(value: &Value<Word>) -> Word
    requires { is_bits (sort_of_value (val_of vector value.now)) ≡ true }
    ensures { vector result ≡ val_of vector value.now }
{
    match *value {
        Value::Num(word) => word,
        Value::Truth(_) => unreachable!(),
    }
}

/// The value of an operator at one vector.
#[tactic(auto, unfolding(sy_terms::specs::Operators::op_value, sy_terms::specs::Sorts::sort_of))]
fn single_value(op: &Op, s: Word) -> Word
    requires ours { in_vectors op.now ≡ true }
    requires takes { TakesSorts op.now (sorts.Bits s.width ∷ []) }
    ensures { vector result ≡ op_value op.now (vector s ∷ []) }
{
    match *op {
        Op::BvNot => inverted(s),
        Op::BvNeg => negated(s),
        Op::Extract(high, low) => extracted(high, low, s),
        Op::Repeat(copies) => repeated(copies, s),
        Op::ZeroExtend(by) => zero_extended(by, s),
        Op::SignExtend(by) => sign_extended(by, s),
        Op::RotateLeft(by) => rotated_left(by, s),
        Op::RotateRight(by) => rotated_right(by, s),
        _ => unreachable!(),
    }
}

/// The value of an operator at two vectors of one width.
#[tactic(auto, unfolding(sy_terms::specs::Operators::op_value, sy_terms::specs::Sorts::sort_of))]
fn same_width_value(op: &Op, s: Word, t: Word) -> Value<Word>
    requires ours { in_vectors op.now ≡ true }
    requires apart { op.now ≢ ops.Concat }
    requires same { s.width ≡ t.width }
    requires takes { TakesSorts op.now (sorts.Bits s.width ∷ sorts.Bits t.width ∷ []) }
    ensures { val_of vector result ≡ op_value op.now (vector s ∷ vector t ∷ []) }
{
    let word = match op {
        Op::BvAnd => and(s, t),
        Op::BvOr => or(s, t),
        Op::BvXor => xor(s, t),
        Op::BvNand => nand(s, t),
        Op::BvNor => nor(s, t),
        Op::BvXnor => xnor(s, t),
        Op::BvAdd => sum(s, t),
        Op::BvSub => difference(s, t),
        Op::BvMul => product(s, t),
        Op::BvUdiv => quotient(s, t),
        Op::BvUrem => remainder(s, t),
        Op::BvSdiv => signed_quotient(s, t),
        Op::BvSrem => signed_remainder(s, t),
        Op::BvSmod => signed_modulus(s, t),
        Op::BvShl => shifted_left(s, t),
        Op::BvLshr => shifted_right(s, t),
        Op::BvAshr => shifted_right_signed(s, t),
        Op::BvComp => compared(s, t),
        Op::BvUlt => return Value::Truth(less(s, t)),
        Op::BvUle => return Value::Truth(at_most(s, t)),
        Op::BvUgt => return Value::Truth(less(t, s)),
        Op::BvUge => return Value::Truth(at_most(t, s)),
        Op::BvSlt => return Value::Truth(signed_less(s, t)),
        Op::BvSle => return Value::Truth(!signed_less(t, s)),
        Op::BvSgt => return Value::Truth(signed_less(t, s)),
        Op::BvSge => return Value::Truth(!signed_less(s, t)),
        _ => unreachable!(),
    };
    Value::Num(word)
}

/// The value of an operator at two vectors.
#[tactic(auto, unfolding(sy_terms::specs::Operators::op_value))]
fn pair_value(op: &Op, s: Word, t: Word) -> Value<Word>
    requires ours { in_vectors op.now ≡ true }
    requires takes { TakesSorts op.now (sorts.Bits s.width ∷ sorts.Bits t.width ∷ []) }
    ensures { val_of vector result ≡ op_value op.now (vector s ∷ vector t ∷ []) }
{
    match op {
        Op::Concat => Value::Num(joined(s, t)),
        _ => same_width_value(op, s, t),
    }
}

/// The value of an operator that takes many vectors from the left.
fn folded_value(op: &Op, first: Word, rest: &[Value<Word>]) -> Value<Word>
    requires ours { in_vectors op.now ≡ true }
    requires takes { TakesMany op.now (sorts.Bits first.width ∷ sorts_of vector rest.now) }
    ensures { val_of vector result ≡ op_value op.now (vector first ∷ vals_of vector rest.now) }
{
    let mut total = Value::Num(first);
    for next in rest {
        total = same_width_value(op, word_of(&total), word_of(next));
    }
    total
}

/// The value of an operator on vectors, at arguments that it takes.
pub(crate) fn vector_value(op: &Op, args: &[Value<Word>]) -> Value<Word>
    requires ours { in_vectors op.now ≡ true }
    requires takes { TakesSorts op.now (sorts_of vector args.now) }
    ensures { val_of vector result ≡ op_value op.now (vals_of vector args.now) }
{
    match args {
        [] => unreachable!(),
        [s] => Value::Num(single_value(op, word_of(s))),
        [s, t] => pair_value(op, word_of(s), word_of(t)),
        [first, rest @ ..] => folded_value(op, word_of(first), rest),
    }
}

/// The value of one of the theory's operators, at arguments that it takes.
pub(crate) fn operator_value(op: &Op, args: &[Value<Word>]) -> Value<Word>
    requires owned { owned op.now ≡ true }
    requires sorted { IsSorted op.now (vals_of vector args.now) }
    ensures { val_of vector result ≡ op_value op.now (vals_of vector args.now) }
{
    if in_core(op) {
        core_value(op, args)
    } else {
        vector_value(op, args)
    }
}
