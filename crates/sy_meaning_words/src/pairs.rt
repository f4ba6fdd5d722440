// Operators on two lists of values, place by place.
ghost use Rattle.std.specs.Prelude.{◌≡◌, ◌≢◌, ◌<◌, ℕ, length, [], ◌∷◌, true};
ghost use Rattle.sy_terms.specs.Operators.{op_value};
ghost use Rattle.sy_terms.specs.Denoted.{vals_of};
ghost use Rattle.sy_terms.specs.Pairs.{ArePairsSorted, ArePairsApplied};
ghost use Rattle.sy_terms.specs.declared.op.Op.TheVariants as ops;
ghost use Rattle.sy_meaning_words.specs.Vectors.{vector, owned, in_vectors};
ghost use Rattle.sy_meaning_words.specs.declared.word.Word.{Word};

use crate::arithmetic::{difference, product, sum};
use crate::bitwise::{and, nand, nor, or, xnor, xor};
use crate::division::{quotient, remainder, signed_modulus, signed_quotient, signed_remainder};
use crate::operators::{operator_value, word_of};
use crate::shifts::{shifted_left, shifted_right, shifted_right_signed};
use crate::word::Word;
use sy_terms::{Op, Value};

/// Puts the operator's value at each value and the other of its place into that value's place.
///
/// The operator is looked at once, and not at each place.
#[tactic(auto, unfolding(sy_terms::specs::Operators::op_value))]
pub(crate) fn apply_pairs(op: &Op, values: &mut [Value<Word>], others: &[Value<Word>])
    requires owned { (place : ℕ) → place < length values.old → owned op.now ≡ true }
    requires same { length others.now ≡ length values.old }
    requires sorted { ArePairsSorted op.now (vals_of vector values.old) (vals_of vector others.now) }
    ensures { ArePairsApplied op.now (vals_of vector values.old)
        (vals_of vector others.now) (vals_of vector values.new) }
{
    match op {
        Op::BvAnd => each_word(op, values, others, and),
        Op::BvOr => each_word(op, values, others, or),
        Op::BvXor => each_word(op, values, others, xor),
        Op::BvNand => each_word(op, values, others, nand),
        Op::BvNor => each_word(op, values, others, nor),
        Op::BvXnor => each_word(op, values, others, xnor),
        Op::BvAdd => each_word(op, values, others, sum),
        Op::BvSub => each_word(op, values, others, difference),
        Op::BvMul => each_word(op, values, others, product),
        Op::BvUdiv => each_word(op, values, others, quotient),
        Op::BvUrem => each_word(op, values, others, remainder),
        Op::BvSdiv => each_word(op, values, others, signed_quotient),
        Op::BvSrem => each_word(op, values, others, signed_remainder),
        Op::BvSmod => each_word(op, values, others, signed_modulus),
        Op::BvShl => each_word(op, values, others, shifted_left),
        Op::BvLshr => each_word(op, values, others, shifted_right),
        Op::BvAshr => each_word(op, values, others, shifted_right_signed),
        _ => each_value(op, values, others),
    }
}

/// The same where `apply` gives the operator's value at two words of one width.
fn each_word<F: Fn(Word, Word) -> Word>(
    op: &Op,
    values: &mut [Value<Word>],
    others: &[Value<Word>],
    apply: F,
)
    requires ours { in_vectors op.now ≡ true }
    requires apart { op.now ≢ ops.Concat }
    requires same { length others.now ≡ length values.old }
    requires sorted { ArePairsSorted op.now (vals_of vector values.old) (vals_of vector others.now) }
    requires callable { (s t : Word) → s.width ≡ t.width → F.pre apply s t }
    requires gives { (s t value : Word) → s.width ≡ t.width →
        F.post apply s t value → vector value ≡ op_value op.now (vector s ∷ vector t ∷ []) }
    ensures { ArePairsApplied op.now (vals_of vector values.old)
        (vals_of vector others.now) (vals_of vector values.new) }
{
    for place in 0..values.len() {
        let first = values[place];
        let second = others[place];
        let word = apply(word_of(&first), word_of(&second));
        values[place] = Value::Num(word);
    }
}

/// The same for any operator.
fn each_value(op: &Op, values: &mut [Value<Word>], others: &[Value<Word>])
    requires owned { (place : ℕ) → place < length values.old → owned op.now ≡ true }
    requires same { length others.now ≡ length values.old }
    requires sorted { ArePairsSorted op.now (vals_of vector values.old) (vals_of vector others.now) }
    ensures { ArePairsApplied op.now (vals_of vector values.old)
        (vals_of vector others.now) (vals_of vector values.new) }
{
    for place in 0..values.len() {
        values[place] = operator_value(op, &[values[place], others[place]]);
    }
}
