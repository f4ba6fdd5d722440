// How operators are spelled.
ghost use Rattle.std.specs.Prelude.{◌≡◌};
ghost use Rattle.sy_terms.specs.Spelling.{spelling};

use sy_terms::Op;

/// How the operator is spelled, without its indices.
#[tactic(auto, unfolding(sy_terms::specs::Spelling::spelling))]
pub fn spell(op: &Op) -> &'static str
    ensures { result.now ≡ spelling op.now }
{
    match op {
        Op::Not => "not",
        Op::And => "and",
        Op::Or => "or",
        Op::Xor => "xor",
        Op::Implies => "=>",
        Op::Equal => "=",
        Op::Distinct => "distinct",
        Op::Ite => "ite",
        Op::Neg | Op::Sub => "-",
        Op::Add => "+",
        Op::Mul => "*",
        Op::Div => "div",
        Op::Mod => "mod",
        Op::Abs => "abs",
        Op::Le => "<=",
        Op::Lt => "<",
        Op::Ge => ">=",
        Op::Gt => ">",
        Op::Concat => "concat",
        Op::Extract(_, _) => "extract",
        Op::BvNot => "bvnot",
        Op::BvNeg => "bvneg",
        Op::BvAnd => "bvand",
        Op::BvOr => "bvor",
        Op::BvXor => "bvxor",
        Op::BvAdd => "bvadd",
        Op::BvMul => "bvmul",
        Op::BvSub => "bvsub",
        Op::BvNand => "bvnand",
        Op::BvNor => "bvnor",
        Op::BvXnor => "bvxnor",
        Op::BvComp => "bvcomp",
        Op::BvUdiv => "bvudiv",
        Op::BvUrem => "bvurem",
        Op::BvSdiv => "bvsdiv",
        Op::BvSrem => "bvsrem",
        Op::BvSmod => "bvsmod",
        Op::BvShl => "bvshl",
        Op::BvLshr => "bvlshr",
        Op::BvAshr => "bvashr",
        Op::Repeat(_) => "repeat",
        Op::ZeroExtend(_) => "zero_extend",
        Op::SignExtend(_) => "sign_extend",
        Op::RotateLeft(_) => "rotate_left",
        Op::RotateRight(_) => "rotate_right",
        Op::BvUlt => "bvult",
        Op::BvUle => "bvule",
        Op::BvUgt => "bvugt",
        Op::BvUge => "bvuge",
        Op::BvSlt => "bvslt",
        Op::BvSle => "bvsle",
        Op::BvSgt => "bvsgt",
        Op::BvSge => "bvsge",
    }
}
