// The operators by their words.
use sy_terms::Op;
use sy_terms_operators::spell;

/// The operators with their words; those with indices at some.
const WORDS: [(Op, &str); 54] = [
    (Op::Not, "not"),
    (Op::And, "and"),
    (Op::Or, "or"),
    (Op::Xor, "xor"),
    (Op::Implies, "=>"),
    (Op::Equal, "="),
    (Op::Distinct, "distinct"),
    (Op::Ite, "ite"),
    (Op::Sub, "-"),
    (Op::Add, "+"),
    (Op::Mul, "*"),
    (Op::Div, "div"),
    (Op::Mod, "mod"),
    (Op::Abs, "abs"),
    (Op::Le, "<="),
    (Op::Lt, "<"),
    (Op::Ge, ">="),
    (Op::Gt, ">"),
    (Op::Concat, "concat"),
    (Op::Extract(3, 0), "extract"),
    (Op::BvNot, "bvnot"),
    (Op::BvNeg, "bvneg"),
    (Op::BvAnd, "bvand"),
    (Op::BvOr, "bvor"),
    (Op::BvXor, "bvxor"),
    (Op::BvAdd, "bvadd"),
    (Op::BvMul, "bvmul"),
    (Op::BvSub, "bvsub"),
    (Op::BvNand, "bvnand"),
    (Op::BvNor, "bvnor"),
    (Op::BvXnor, "bvxnor"),
    (Op::BvComp, "bvcomp"),
    (Op::BvUdiv, "bvudiv"),
    (Op::BvUrem, "bvurem"),
    (Op::BvSdiv, "bvsdiv"),
    (Op::BvSrem, "bvsrem"),
    (Op::BvSmod, "bvsmod"),
    (Op::BvShl, "bvshl"),
    (Op::BvLshr, "bvlshr"),
    (Op::BvAshr, "bvashr"),
    (Op::Repeat(2), "repeat"),
    (Op::ZeroExtend(2), "zero_extend"),
    (Op::SignExtend(2), "sign_extend"),
    (Op::RotateLeft(3), "rotate_left"),
    (Op::RotateRight(3), "rotate_right"),
    (Op::BvUlt, "bvult"),
    (Op::BvUle, "bvule"),
    (Op::BvUgt, "bvugt"),
    (Op::BvUge, "bvuge"),
    (Op::BvSlt, "bvslt"),
    (Op::BvSle, "bvsle"),
    (Op::BvSgt, "bvsgt"),
    (Op::BvSge, "bvsge"),
    (Op::Neg, "-"),
];

/// Whether the operators are spelled as in files.
pub fn are_spelled() -> bool {
    let mut are_spelled = true;
    for (op, word) in &WORDS {
        are_spelled &= spell(op) == *word;
    }
    are_spelled
}

/// The operator of a word alone: `-` is the difference, and `neg` the negated integer.
fn plain(word: &str) -> Option<Op> {
    if word == "neg" {
        return Some(Op::Neg);
    }
    for (op, spelled) in &WORDS {
        if *spelled == word {
            return Some(*op);
        }
    }
    None
}

/// The operator of a word and its indices, as `extract,3,0`.
pub fn operator(text: &str) -> Option<Op> {
    let Some((word, indices)) = text.split_once(',') else {
        return plain(text);
    };
    let (first, second) = indices.split_once(',').unwrap_or((indices, "0"));
    let index = first.parse().unwrap_or(0);
    match word {
        "extract" => Some(Op::Extract(index, second.parse().unwrap_or(0))),
        "repeat" => Some(Op::Repeat(index)),
        "zero_extend" => Some(Op::ZeroExtend(index)),
        "sign_extend" => Some(Op::SignExtend(index)),
        "rotate_left" => Some(Op::RotateLeft(index)),
        "rotate_right" => Some(Op::RotateRight(index)),
        _ => None,
    }
}
