// Comparisons of vectors, by the normal form of the difference.
ghost use Rattle.std.specs.Prelude.{◌≡◌, ℕ, [], ◌∷◌, List, IfOk, IfSome};
ghost use Rattle.sy_terms.specs.Values.{Val, Truth};
ghost use Rattle.sy_terms.specs.Denoted.{expr_of};
ghost use Rattle.sy_terms.specs.Meaning.{meaning};
ghost use Rattle.sy_terms.specs.Operators.{op_value};
ghost use Rattle.sy_meaning_words.specs.Vectors.{vector};
ghost use Rattle.sy_rewrite_orders.specs.Sums.{HasSum, IsComparedAs, BeginWithSorts};

use crate::sums::sum_of;
use std::alloc::Global;
use sy_bits_sums::{Sum, greatest};
use sy_meaning_words::BvTheory;
use sy_terms::{Op, Sort, Term, Want};

/// The most bits of a vector.
const MOST_BITS: u32 = 64;

/// Whether vectors that have these sums are equal, where the difference is a number.
fn compared(alloc: Global, left: &Sum, right: &Sum) -> Result<Option<bool>, Want>
    ensures { IfOk result (λ found. IfSome found (λ equal. (values : List Val) (x y : Val) →
        HasSum values left.now x → HasSum values right.now y → IsComparedAs equal x y)) }
{
    let width = left.width;
    if width > MOST_BITS || right.width != width {
        return Ok(None);
    }
    let ones = greatest(width);
    let difference = left.plus(alloc, width, right, ones)?;
    let Some(number) = difference.fixed() else {
        return Ok(None);
    };
    if number > ones {
        return Ok(None);
    }
    Ok(Some(number == 0))
}

/// What the operator says of two vectors, of which is known whether they are equal; `None` where that isn't enough.
fn truth_by(operator: Op, equal: bool) -> Option<bool>
    ensures { IfSome result (λ truth. (x y : Val) → IsComparedAs equal x y →
        op_value operator (x ∷ y ∷ []) ≡ Truth truth) }
{
    match operator {
        Op::Equal => Some(equal),
        Op::Distinct => Some(!equal),
        _ => order_by(operator, equal),
    }
}

/// What the operator says of two vectors, where it asks for their order and they are equal.
fn order_by(operator: Op, equal: bool) -> Option<bool>
    ensures { IfSome result (λ truth. (x y : Val) → IsComparedAs equal x y →
        op_value operator (x ∷ y ∷ []) ≡ Truth truth) }
{
    if !equal {
        return None;
    }
    match operator {
        Op::BvUlt => Some(false),
        Op::BvUle => Some(true),
        Op::BvUgt => Some(false),
        Op::BvUge => Some(true),
        Op::BvSlt => Some(false),
        Op::BvSle => Some(true),
        Op::BvSgt => Some(false),
        Op::BvSge => Some(true),
        _ => None,
    }
}

/// What the operator says of two terms where the first values are of these sorts, if they are sums whose difference
/// decides it.
pub(crate) fn truth_at(
    alloc: Global,
    sorts: &[Sort],
    operator: Op,
    left: &Term<BvTheory>,
    right: &Term<BvTheory>,
) -> Result<Option<bool>, Want>
    ensures { IfOk result (λ found. IfSome found (λ truth. (values : List Val) →
        BeginWithSorts sorts.now values → op_value operator (meaning [] [] values (expr_of vector left.now) ∷
        meaning [] [] values (expr_of vector right.now) ∷ []) ≡ Truth truth)) }
{
    let Some(first) = sum_of(alloc, sorts, left)? else {
        return Ok(None);
    };
    let Some(second) = sum_of(alloc, sorts, right)? else {
        return Ok(None);
    };
    let Some(equal) = compared(alloc, &first, &second)? else {
        return Ok(None);
    };
    Ok(truth_by(operator, equal))
}
