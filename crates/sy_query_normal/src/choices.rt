// Choices whose branch is known.
ghost use Rattle.std.specs.Prelude.{◌≡◌, [], List, IfOk, IfSome};
ghost use Rattle.sy_terms.specs.Values.{Val, Truth};
ghost use Rattle.sy_terms.specs.Denoted.{val_of, expr_of, exprs_of};
ghost use Rattle.sy_terms.specs.Expr.{Apply};
ghost use Rattle.sy_terms.specs.Meaning.{meaning, meanings};
ghost use Rattle.sy_terms.specs.Operators.{op_value};
ghost use Rattle.sy_terms.specs.declared.op.Op.TheVariants as ops;
ghost use Rattle.sy_terms.specs.declared.sort.Sort.{Sort};
ghost use Rattle.sy_meaning_words.specs.Vectors.{vector};
ghost use Rattle.sy_rewrite_orders.specs.Sums.{IsSameOver};

use std::alloc::Global;
use sy_meaning_words::{BvTheory, Word};
use sy_terms::{Term, Terms, Value, Want};

/// The branch of a choice between the terms, where it is known.
pub(crate) fn chosen(
    alloc: Global,
    arguments: &Terms<BvTheory>,
) -> Result<Option<Term<BvTheory>>, Want>
    ensures { IfOk result (λ found. IfSome found (λ term. (sorts : List Sort) →
        IsSameOver sorts (expr_of vector term) (Apply ops.Ite (exprs_of vector arguments.now.items.items)))) }
{
    let Some(branch) = branch_of(arguments) else {
        return Ok(None);
    };
    let term = branch.copy(alloc)?;
    Ok(Some(term))
}

/// The branch, where the terms are a test, which may be a constant, and two branches, which may be the same.
fn branch_of<'a>(arguments: &'a Terms<BvTheory>) -> Option<&'a Term<BvTheory>>
    ensures { IfSome result (λ branch. (values : List Val) → meaning [] [] values (expr_of vector branch.now) ≡
        op_value ops.Ite (meanings [] [] values (exprs_of vector arguments.now.items.items))) }
{
    if arguments.len() != 3 {
        return None;
    }
    let test = arguments.get(0)?;
    let there = arguments.get(1)?;
    let here = arguments.get(2)?;
    if there.equals(here) {
        return Some(here);
    }
    let truth = truth_of(test)?;
    if truth { Some(there) } else { Some(here) }
}

/// The truth value that the term is, where it is a constant.
fn truth_of(term: &Term<BvTheory>) -> Option<bool>
    ensures { IfSome result (λ truth. (values : List Val) →
        meaning [] [] values (expr_of vector term.now) ≡ Truth truth) }
{
    match term {
        Term::Const(value) => truth_in(value),
        _ => None,
    }
}

/// The truth value that the value is.
fn truth_in(value: &Value<Word>) -> Option<bool>
    ensures { IfSome result (λ truth. val_of vector value.now ≡ Truth truth) }
{
    match value {
        Value::Truth(truth) => Some(*truth),
        Value::Num(_) => None,
    }
}
