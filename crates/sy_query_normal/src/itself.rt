// Operators at a vector and the same vector again.
ghost use Rattle.std.specs.Prelude.{◌≡◌, ℕ, [], ◌∷◌, List, IsTrue, IfOk, IfSome};
ghost use Rattle.sy_terms.specs.Values.{Val, Bits};
ghost use Rattle.sy_terms.specs.Denoted.{expr_of, exprs_of};
ghost use Rattle.sy_terms.specs.Expr.{Apply, Constant};
ghost use Rattle.sy_terms.specs.Meaning.{meaning, meanings};
ghost use Rattle.sy_terms.specs.Operators.{op_value};
ghost use Rattle.sy_meaning_words.specs.Vectors.{vector};
ghost use Rattle.sy_rewrite_orders.specs.Sums.{IsSameOver};

use crate::sides::at_two;
use crate::sorts::width_of;
use std::alloc::Global;
use sy_meaning_words::{BvTheory, Word};
use sy_terms::{Op, Sort, Term, Terms, Value, Want};

/// The operator at the terms, where they are one vector twice: zeros for a remainder and for a shift to the right that
/// fills with zeros; for one that fills with the top bit the shift by one place less than the vector has. `None` for
/// other operators, and where the width isn't known.
pub(crate) fn by_itself(
    alloc: Global,
    sorts: &[Sort],
    operator: Op,
    arguments: &Terms<BvTheory>,
) -> Result<Option<Term<BvTheory>>, Want>
    ensures { IfOk result (λ found. IfSome found (λ term.
        IsSameOver sorts.now (expr_of vector term) (Apply operator (exprs_of vector arguments.now.items.items)))) }
{
    let Some(term) = twice(arguments) else {
        return Ok(None);
    };
    let Some(width) = width_of(alloc, sorts, term)? else {
        return Ok(None);
    };
    if leaves_nothing(operator) {
        return Ok(constant(width, 0));
    }
    let Op::BvAshr = operator else {
        return Ok(None);
    };
    let Some(places) = constant(width, u64::from(width).saturating_sub(1)) else {
        return Ok(None);
    };
    let shifted = at_two(alloc, Op::BvAshr, term, &places)?;
    Ok(Some(shifted))
}

/// The term that the terms are, where they are two equal ones.
fn twice<'a>(arguments: &'a Terms<BvTheory>) -> Option<&'a Term<BvTheory>>
    ensures { IfSome result (λ term. (values : List Val) →
        meanings [] [] values (exprs_of vector arguments.now.items.items) ≡
        meaning [] [] values (expr_of vector term.now) ∷ meaning [] [] values (expr_of vector term.now) ∷ []) }
{
    if arguments.len() != 2 {
        return None;
    }
    let left = arguments.get(0)?;
    let right = arguments.get(1)?;
    if left.equals(right) { Some(left) } else { None }
}

/// Whether the operator gives zeros at a vector and the same vector again.
fn leaves_nothing(operator: Op) -> bool
    ensures { IsTrue result → (width number : ℕ) →
        op_value operator (Bits width number ∷ Bits width number ∷ []) ≡ Bits width 0 }
{
    match operator {
        Op::BvLshr => true,
        Op::BvUrem => true,
        Op::BvSrem => true,
        Op::BvSmod => true,
        _ => false,
    }
}

/// The vector as a term; `None` where there is none of this width and number.
fn constant(width: u8, number: u64) -> Option<Term<BvTheory>>
    ensures { IfSome result (λ term. expr_of vector term ≡ Constant (Bits width number)) }
{
    let word = Word::new(width, number)?;
    Some(Term::Const(Value::Num(word)))
}
