// What operators do to sums.
ghost use Rattle.std.specs.Prelude.{◌≡◌, ◌≤◌, ◌<◌, ◌^◌, [], ◌∷◌, List, true, IfOk, IfSome, IsTrue};
ghost use Rattle.sy_terms.specs.Values.{Val};
ghost use Rattle.sy_terms.specs.Operators.{op_value};
ghost use Rattle.sy_terms.specs.declared.op.Op.TheVariants as ops;
ghost use Rattle.sy_meaning_words.specs.Vectors as vectors;
ghost use Rattle.sy_rewrite_orders.specs.Sums.{HasSum, HaveSums};

use std::alloc::Global;
use sy_bits_sums::{Sum, greatest};
use sy_terms::{Op, Want};

/// The most bits of a vector.
const MOST_BITS: u32 = 64;

/// The most monomials of a product that is multiplied out.
const MOST_MONOMIALS: usize = 64;

/// The most factors of a monomial of a product.
const MOST_FACTORS: usize = 16;

/// Whether the operator's value at vectors that have sums may have one.
pub(crate) fn makes_sums(operator: Op) -> bool {
    matches!(
        operator,
        Op::BvNeg | Op::BvNot | Op::BvAdd | Op::BvSub | Op::BvMul | Op::BvShl
    )
}

/// The sum of the operator's value at vectors that have these sums; `None` where it isn't known.
pub(crate) fn applied(alloc: Global, operator: Op, sums: &[Sum]) -> Result<Option<Sum>, Want>
    ensures { IfOk result (λ found. IfSome found (λ sum. (values arguments : List Val) →
        HaveSums values sums.now arguments → HasSum values sum (op_value operator arguments))) }
{
    match sums {
        [sum] => {
            let found = of_one(alloc, operator, sum)?;
            Ok(found)
        }
        [left, right] => {
            let found = of_two(alloc, operator, left, right)?;
            Ok(found)
        }
        [first, second, rest @ ..] => {
            let found = of_many(alloc, operator, first, second, rest)?;
            Ok(found)
        }
        _ => Ok(None),
    }
}

/// The sum of the operator's value at one vector.
fn of_one(alloc: Global, operator: Op, sum: &Sum) -> Result<Option<Sum>, Want>
    ensures { IfOk result (λ found. IfSome found (λ r. (values : List Val) (x : Val) →
        HasSum values sum.now x → HasSum values r (op_value operator (x ∷ [])))) }
{
    let width = sum.width;
    if width > MOST_BITS {
        return Ok(None);
    }
    let ones = greatest(width);
    match operator {
        Op::BvNeg => {
            let zero = Sum::new(alloc, width);
            let negated = zero.plus(alloc, width, sum, ones)?;
            Ok(Some(negated))
        }
        Op::BvNot => {
            let most = Sum::constant(alloc, width, ones)?;
            let inverted = most.plus(alloc, width, sum, ones)?;
            Ok(Some(inverted))
        }
        _ => Ok(None),
    }
}

/// The sum of the operator's value at two vectors.
fn of_two(alloc: Global, operator: Op, left: &Sum, right: &Sum) -> Result<Option<Sum>, Want>
    ensures { IfOk result (λ found. IfSome found (λ r. (values : List Val) (x y : Val) →
        HasSum values left.now x → HasSum values right.now y → HasSum values r (op_value operator (x ∷ y ∷ [])))) }
{
    let width = left.width;
    if width > MOST_BITS || right.width != width {
        return Ok(None);
    }
    match operator {
        Op::BvAdd => {
            let sum = left.plus(alloc, width, right, 1)?;
            Ok(Some(sum))
        }
        Op::BvSub => {
            let difference = left.plus(alloc, width, right, greatest(width))?;
            Ok(Some(difference))
        }
        Op::BvMul => {
            let product = multiplied(alloc, left, right)?;
            Ok(product)
        }
        Op::BvShl => {
            let shifted = shifted(alloc, left, right)?;
            Ok(shifted)
        }
        _ => Ok(None),
    }
}

/// The sum of the operator's value at two vectors and the rest, where it takes them from the left.
fn of_many(
    alloc: Global,
    operator: Op,
    first: &Sum,
    second: &Sum,
    rest: &[Sum],
) -> Result<Option<Sum>, Want>
    ensures { IfOk result (λ found. IfSome found (λ r. (values arguments : List Val) → HaveSums values (first.now ∷
        second.now ∷ rest.now) arguments → HasSum values r (op_value operator arguments))) }
{
    if !is_folded(operator) {
        return Ok(None);
    }
    let Some(start) = of_two(alloc, operator, first, second)? else {
        return Ok(None);
    };
    let mut whole = start;
    for sum in rest {
        let Some(next) = of_two(alloc, operator, &whole, sum)? else {
            return Ok(None);
        };
        whole = next;
    }
    Ok(Some(whole))
}

/// Whether the operator is the sum or the product of any number of vectors.
fn is_folded(operator: Op) -> bool
    ensures { IsTrue result → vectors.is_folded operator ≡ true }
{
    matches!(operator, Op::BvAdd | Op::BvMul)
}

/// The sum of the product of two vectors, where it has few monomials of few factors.
fn multiplied(alloc: Global, left: &Sum, right: &Sum) -> Result<Option<Sum>, Want>
    requires width { left.now.width ≤ 64 }
    requires same { right.now.width ≡ left.now.width }
    ensures { IfOk result (λ found. IfSome found (λ r. (values : List Val) (x y : Val) →
        HasSum values left.now x → HasSum values right.now y → HasSum values r (op_value ops.BvMul (x ∷ y ∷ [])))) }
{
    let many = left.monomials.len().saturating_mul(right.monomials.len());
    let long = most_factors(left).saturating_add(most_factors(right));
    if many > MOST_MONOMIALS || long > MOST_FACTORS {
        return Ok(None);
    }
    let product = left.times(alloc, left.width, right)?;
    Ok(Some(product))
}

/// The sum of a vector that is shifted to the left by another one, where that is a number below the width.
fn shifted(alloc: Global, left: &Sum, right: &Sum) -> Result<Option<Sum>, Want>
    requires width { left.now.width ≤ 64 }
    requires same { right.now.width ≡ left.now.width }
    ensures { IfOk result (λ found. IfSome found (λ r. (values : List Val) (x y : Val) →
        HasSum values left.now x → HasSum values right.now y → HasSum values r (op_value ops.BvShl (x ∷ y ∷ [])))) }
{
    let width = left.width;
    let Some(by) = right.fixed() else {
        return Ok(None);
    };
    if by >= u64::from(width) {
        return Ok(None);
    }
    let zero = Sum::new(alloc, width);
    let sum = zero.plus(alloc, width, left, power(by))?;
    Ok(Some(sum))
}

/// Two to the power of a number below 64.
fn power(by: u64) -> u64
    requires { by < 64 }
    ensures { result ≡ 2 ^ by }
{
    1 << by
}

/// The most factors of a monomial of the sum.
fn most_factors(sum: &Sum) -> usize {
    let mut most = 0;
    for monomial in sum.monomials.as_slice() {
        most = most.max(monomial.factors.len());
    }
    most
}
