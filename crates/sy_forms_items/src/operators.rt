// The operators by their names, and the words that no name may be.
ghost use Rattle.std.specs.Prelude.{◌≡◌, true, is_some};
ghost use Rattle.sy_forms_items.specs.Operators as spec;

use crate::parts::{Indices, is};
use sy_terms::{Logic, Op};
use sy_terms_operators::spell;

const CORE: [Op; 8] = [
    Op::Not,
    Op::And,
    Op::Or,
    Op::Xor,
    Op::Implies,
    Op::Equal,
    Op::Distinct,
    Op::Ite,
];

/// `-` stands for both of its operators.
const INTEGERS: [Op; 10] = [
    Op::Sub,
    Op::Add,
    Op::Mul,
    Op::Le,
    Op::Lt,
    Op::Ge,
    Op::Gt,
    Op::Div,
    Op::Mod,
    Op::Abs,
];

const VECTORS: [Op; 29] = [
    Op::Concat,
    Op::BvNot,
    Op::BvNeg,
    Op::BvAnd,
    Op::BvOr,
    Op::BvXor,
    Op::BvAdd,
    Op::BvMul,
    Op::BvSub,
    Op::BvNand,
    Op::BvNor,
    Op::BvXnor,
    Op::BvComp,
    Op::BvUdiv,
    Op::BvUrem,
    Op::BvSdiv,
    Op::BvSrem,
    Op::BvSmod,
    Op::BvShl,
    Op::BvLshr,
    Op::BvAshr,
    Op::BvUlt,
    Op::BvUle,
    Op::BvUgt,
    Op::BvUge,
    Op::BvSlt,
    Op::BvSle,
    Op::BvSgt,
    Op::BvSge,
];

/// The first of the operators that has this name.
fn spelled(name: &[u8], ops: &[Op]) -> Option<Op>
    ensures { result ≡ spec.operator_spelled name.now ops.now }
{
    for op in ops {
        if name == spell(op).as_bytes() {
            return Some(*op);
        }
    }
    None
}

/// The operator without indices that has this name in the logic. `-` gives the subtraction.
pub fn operator_named(logic: Logic, name: &[u8]) -> Option<Op>
    ensures { result ≡ spec.operator_named logic name.now }
{
    if let Some(op) = spelled(name, &CORE) {
        return Some(op);
    }
    match logic {
        Logic::Lia => spelled(name, &INTEGERS),
        Logic::Bv => spelled(name, &VECTORS),
    }
}

/// The operator at so many arguments: `-` at one is the negation.
pub fn at_count(count: usize, op: Op) -> Op
    ensures { result ≡ spec.at_count count op }
{
    match op {
        Op::Sub if count == 1 => Op::Neg,
        _ => op,
    }
}

/// Whether each index is at most 64.
pub fn are_small(indices: Indices) -> bool
    ensures { result ≡ spec.are_small indices }
{
    match indices {
        Indices::One(i) => i <= 64,
        Indices::Two(i, j) => i <= 64 && j <= 64,
        Indices::More => false,
    }
}

/// The operator with one index that has this name.
fn with_one_index(name: &[u8], i: u8) -> Option<Op>
    ensures { result ≡ spec.with_one_index name.now i }
{
    if is(name, b"repeat") {
        Some(Op::Repeat(i))
    } else if is(name, b"zero_extend") {
        Some(Op::ZeroExtend(i))
    } else if is(name, b"sign_extend") {
        Some(Op::SignExtend(i))
    } else if is(name, b"rotate_left") {
        Some(Op::RotateLeft(i))
    } else if is(name, b"rotate_right") {
        Some(Op::RotateRight(i))
    } else {
        None
    }
}

/// Whether an operator has this name and so many indices.
pub fn is_indexed(name: &[u8], indices: Indices) -> bool
    ensures { result ≡ is_some (spec.indexed_operator name.now indices) }
{
    match indices {
        Indices::One(_) => with_one_index(name, 0).is_some(),
        Indices::Two(_, _) => is(name, b"extract"),
        Indices::More => false,
    }
}

/// The operator that has this name and these indices.
pub fn indexed_operator(name: &[u8], indices: Indices) -> Option<Op>
    requires { spec.are_small indices ≡ true }
    ensures { result ≡ spec.indexed_operator name.now indices }
{
    match indices {
        Indices::One(i) => with_one_index(name, i as u8),
        Indices::Two(i, j) if is(name, b"extract") => Some(Op::Extract(i as u8, j as u8)),
        _ => None,
    }
}

/// Whether no name may be this word.
pub fn is_reserved(logic: Logic, name: &[u8]) -> bool
    ensures { result ≡ spec.is_reserved logic name.now }
{
    is_language_word(name) || is_logic_word(logic, name) || operator_named(logic, name).is_some()
}

/// Words of the language.
fn is_language_word(name: &[u8]) -> bool
    ensures { result ≡ spec.is_one_of spec.language_words name.now }
{
    is(name, b"true")
        | is(name, b"false")
        | is(name, b"let")
        | is(name, b"_")
        | is(name, b"!")
        | is(name, b"as")
        | is(name, b"par")
        | is(name, b"forall")
        | is(name, b"exists")
        | is(name, b"match")
        | is(name, b"Constant")
        | is(name, b"Variable")
}

/// The other words of a logic: the names of its indexed operators.
fn is_logic_word(logic: Logic, name: &[u8]) -> bool
    ensures { result ≡ spec.is_one_of (spec.logic_words logic) name.now }
{
    match logic {
        Logic::Lia => false,
        Logic::Bv => {
            is(name, b"extract")
                | is(name, b"repeat")
                | is(name, b"zero_extend")
                | is(name, b"sign_extend")
                | is(name, b"rotate_left")
                | is(name, b"rotate_right")
        }
    }
}
