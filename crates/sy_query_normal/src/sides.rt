// Operators at two terms, with the terms in one order.
ghost use Rattle.std.specs.Prelude.{◌≡◌, [], ◌∷◌, IfOk, IfSome};
ghost use Rattle.sy_terms.specs.Values.{Val};
ghost use Rattle.sy_terms.specs.Denoted.{expr_of, exprs_of};
ghost use Rattle.sy_terms.specs.Expr.{Apply, more, none};
ghost use Rattle.sy_terms.specs.Operators.{op_value};
ghost use Rattle.sy_terms.specs.Theories.{sort_of_value};
ghost use Rattle.sy_meaning_words.specs.Vectors.{vector};
ghost use Rattle.sy_rewrite_orders.specs.Sums.{IsSameOver};

use crate::order::is_before;
use crate::sorts::have_one_sort;
use std::alloc::Global;
use sy_meaning_words::BvTheory;
use sy_terms::{Op, Sort, Term, Terms, Want};

/// The operator at the two terms exchanged, where it says "greater", or where either may stand first and the second one
/// stands before the first in order.
pub(crate) fn turned(
    alloc: Global,
    sorts: &[Sort],
    operator: Op,
    arguments: &Terms<BvTheory>,
) -> Result<Option<Term<BvTheory>>, Want>
    ensures { IfOk result (λ found. IfSome found (λ term.
        IsSameOver sorts.now (expr_of vector term) (Apply operator (exprs_of vector arguments.now.items.items)))) }
{
    if arguments.len() != 2 {
        return Ok(None);
    }
    let (Some(left), Some(right)) = (arguments.get(0), arguments.get(1)) else {
        return Ok(None);
    };
    let Some(other) = exchanged(operator) else {
        return Ok(None);
    };
    if !says_greater(operator) && !is_before(right, left) {
        return Ok(None);
    }
    if !have_one_sort(alloc, sorts, left, right)? {
        return Ok(None);
    }
    let term = at_two(alloc, other, right, left)?;
    Ok(Some(term))
}

/// The operator that gives at exchanged arguments what this one gives; `None` for the others and for those that say
/// "less".
fn exchanged(operator: Op) -> Option<Op>
    ensures { IfSome result (λ other. (x y : Val) → sort_of_value x ≡ sort_of_value y →
        op_value other (y ∷ x ∷ []) ≡ op_value operator (x ∷ y ∷ [])) }
{
    match operator {
        Op::Equal => Some(Op::Equal),
        Op::Distinct => Some(Op::Distinct),
        Op::BvComp => Some(Op::BvComp),
        Op::BvAdd => Some(Op::BvAdd),
        Op::BvMul => Some(Op::BvMul),
        Op::BvNand => Some(Op::BvNand),
        Op::BvNor => Some(Op::BvNor),
        Op::BvXnor => Some(Op::BvXnor),
        Op::BvUgt => Some(Op::BvUlt),
        Op::BvUge => Some(Op::BvUle),
        Op::BvSgt => Some(Op::BvSlt),
        Op::BvSge => Some(Op::BvSle),
        _ => None,
    }
}

/// Whether the operator says that its first argument is greater, or not less.
fn says_greater(operator: Op) -> bool {
    matches!(operator, Op::BvUgt | Op::BvUge | Op::BvSgt | Op::BvSge)
}

/// The operator at two terms.
pub(crate) fn at_two(
    alloc: Global,
    operator: Op,
    first: &Term<BvTheory>,
    second: &Term<BvTheory>,
) -> Result<Term<BvTheory>, Want>
    ensures { IfOk result (λ term. expr_of vector term ≡
        Apply operator (more (expr_of vector first.now) (more (expr_of vector second.now) none))) }
{
    let mut arguments = Terms::with_capacity(alloc, 2)?;
    let first = first.copy(alloc)?;
    arguments.push(first)?;
    let second = second.copy(alloc)?;
    arguments.push(second)?;
    Ok(Term::App(operator, arguments))
}
