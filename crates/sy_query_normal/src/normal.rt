// Terms that mean the same, written in one way.
ghost use Rattle.std.specs.Prelude.{IfOk, IfSome};
ghost use Rattle.sy_terms.specs.Denoted.{expr_of, exprs_of};
ghost use Rattle.sy_terms.specs.Expr.{Apply};
ghost use Rattle.sy_meaning_words.specs.Vectors.{vector};
ghost use Rattle.sy_rewrite_orders.specs.Sums.{IsSameOver, AreSameOver};

use crate::choices::chosen;
use crate::itself::by_itself;
use crate::sides::turned;
use crate::unordered::gathered;
use std::alloc::Global;
use sy_meaning_words::BvTheory;
use sy_terms::{Op, Sort, Term, Terms, Want};

/// A term that means the same over variables of these sorts, whose applications are written in one way.
#[cycle(normal)]
pub(crate) fn normal(
    alloc: Global,
    sorts: &[Sort],
    term: &Term<BvTheory>,
) -> Result<Term<BvTheory>, Want>
    ensures { IfOk result (λ found. IsSameOver sorts.now (expr_of vector found) (expr_of vector term.now)) }
{
    match term {
        Term::App(operator, arguments) => {
            let arguments = all_normal(alloc, sorts, arguments.as_slice())?;
            let found = normal_application(alloc, sorts, *operator, arguments)?;
            Ok(found)
        }
        Term::Let(bound, inner) => {
            let bound = all_normal(alloc, sorts, bound.as_slice())?;
            let inner = normal(alloc, sorts, inner)?;
            Ok(Term::Let(bound, Box::new(alloc, inner)?))
        }
        _ => {
            let found = term.copy(alloc)?;
            Ok(found)
        }
    }
}

/// The same of each of the terms.
#[cycle(normal)]
fn all_normal(
    alloc: Global,
    sorts: &[Sort],
    terms: &[Term<BvTheory>],
) -> Result<Terms<BvTheory>, Want>
    ensures { IfOk result (λ found.
        AreSameOver sorts.now (exprs_of vector found.items.items) (exprs_of vector terms.now)) }
{
    let mut all = Terms::with_capacity(alloc, terms.len())?;
    for term in terms {
        let found = normal(alloc, sorts, term)?;
        all.push(found)?;
    }
    Ok(all)
}

/// The operator at the terms, written anew where there is another way to write it.
fn normal_application(
    alloc: Global,
    sorts: &[Sort],
    operator: Op,
    arguments: Terms<BvTheory>,
) -> Result<Term<BvTheory>, Want>
    ensures { IfOk result (λ found.
        IsSameOver sorts.now (expr_of vector found) (Apply operator (exprs_of vector arguments.items.items))) }
{
    match anew(alloc, sorts, operator, &arguments)? {
        Some(found) => Ok(found),
        None => Ok(Term::App(operator, arguments)),
    }
}

/// What the operator at the terms is written as; `None` where it stays.
fn anew(
    alloc: Global,
    sorts: &[Sort],
    operator: Op,
    arguments: &Terms<BvTheory>,
) -> Result<Option<Term<BvTheory>>, Want>
    ensures { IfOk result (λ found. IfSome found (λ term.
        IsSameOver sorts.now (expr_of vector term) (Apply operator (exprs_of vector arguments.now.items.items)))) }
{
    match operator {
        Op::Ite => {
            let found = chosen(alloc, arguments)?;
            Ok(found)
        }
        Op::And | Op::Or | Op::BvAnd | Op::BvOr | Op::BvXor => {
            let found = gathered(alloc, sorts, operator, arguments)?;
            Ok(found)
        }
        Op::BvLshr | Op::BvAshr | Op::BvUrem | Op::BvSrem | Op::BvSmod => {
            let found = by_itself(alloc, sorts, operator, arguments)?;
            Ok(found)
        }
        _ => {
            let found = turned(alloc, sorts, operator, arguments)?;
            Ok(found)
        }
    }
}
