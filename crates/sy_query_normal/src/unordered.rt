// Operators whose arguments may stand in any order, at arguments in order.
ghost use Rattle.std.specs.Prelude.{◌≡◌, ℕ, [], ◌∷◌, List, IsTrue, IfOk, IfSome};
ghost use Rattle.sy_terms.specs.Values.{Val};
ghost use Rattle.sy_terms.specs.Denoted.{expr_of, exprs_of};
ghost use Rattle.sy_terms.specs.Expr.{Apply};
ghost use Rattle.sy_terms.specs.Meaning.{meaning, meanings};
ghost use Rattle.sy_terms.specs.declared.sort.Sort.TheVariants as kinds;
ghost use Rattle.sy_meaning_words.specs.Vectors.{vector};
ghost use Rattle.sy_rewrite_orders.specs.Sums.{IsSameOver};
ghost use Rattle.sy_query_normal.specs.Unordered.{GiveTheSame, IsUnordered};

use crate::parts::{are_in_order, count, flattened, in_order};
use crate::sorts::{application_sort, has_sort};
use std::alloc::Global;
use sy_meaning_words::{BvTheory, Word};
use sy_terms::{Op, Sort, Term, Terms, Value, Want};

/// The most arguments that are put in order.
const MOST_PARTS: usize = 64;

/// The operator at the terms, in which the arguments of an argument under the same operator are its own, stand in
/// order, those beside their complements first, and are freed of doubles; `None` where the operator isn't one of these
/// or the sorts of the terms aren't known.
pub(crate) fn gathered(
    alloc: Global,
    sorts: &[Sort],
    operator: Op,
    arguments: &Terms<BvTheory>,
) -> Result<Option<Term<BvTheory>>, Want>
    ensures { IfOk result (λ found. IfSome found (λ term.
        IsSameOver sorts.now (expr_of vector term) (Apply operator (exprs_of vector arguments.now.items.items)))) }
{
    let terms = arguments.as_slice();
    if terms.len() < 2 {
        return Ok(None);
    }
    if count(operator, terms) > MOST_PARTS || are_in_order(operator, terms) {
        return Ok(None);
    }
    let Some(sort) = application_sort(alloc, sorts, operator, terms)? else {
        return Ok(None);
    };
    if !is_unordered(operator, sort) {
        return Ok(None);
    }
    let parts = flattened(alloc, operator, terms)?;
    let Some(parts) = in_order(alloc, sorts, operator, sort, parts.as_slice())? else {
        return Ok(None);
    };
    let Some(term) = applied(alloc, operator, sort, parts.as_slice())? else {
        return Ok(None);
    };
    if !has_sort(alloc, sorts, sort, &term)? {
        return Ok(None);
    }
    Ok(Some(term))
}

/// Whether the operator at values of the sort takes them in any order.
fn is_unordered(operator: Op, sort: Sort) -> bool
    ensures { IsTrue result → IsUnordered sort operator }
{
    match operator {
        Op::And => is_truth(sort),
        Op::Or => is_truth(sort),
        Op::BvAnd => is_vector(sort),
        Op::BvOr => is_vector(sort),
        Op::BvXor => is_vector(sort),
        _ => false,
    }
}

fn is_truth(sort: Sort) -> bool
    ensures { IsTrue result → sort ≡ kinds.Bool }
{
    match sort {
        Sort::Bool => true,
        Sort::Int => false,
        Sort::Bits(_) => false,
    }
}

fn is_vector(sort: Sort) -> bool
    ensures { IsTrue result → (width : ℕ) × (sort ≡ kinds.Bits width) }
{
    match sort {
        Sort::Bool => false,
        Sort::Int => false,
        Sort::Bits(_) => true,
    }
}

/// The operator at the parts: the part, where it is one, and what stands for none, where all cancelled each other.
fn applied(
    alloc: Global,
    operator: Op,
    sort: Sort,
    parts: &[Term<BvTheory>],
) -> Result<Option<Term<BvTheory>>, Want>
    ensures { IfOk result (λ found.
        IfSome found (λ term. IsUnordered sort operator → (values : List Val) → GiveTheSame sort operator
        (meaning [] [] values (expr_of vector term) ∷ []) (meanings [] [] values (exprs_of vector parts.now)))) }
{
    if parts.len() == 0 {
        return Ok(nothing(operator, sort));
    }
    if parts.len() == 1 {
        let term = parts[0].copy(alloc)?;
        return Ok(Some(term));
    }
    let all = copied(alloc, parts)?;
    Ok(Some(Term::App(operator, all)))
}

/// A term that changes nothing behind a value of the sort, where the operator's arguments may cancel each other.
fn nothing(operator: Op, sort: Sort) -> Option<Term<BvTheory>>
    ensures { IfSome result (λ term. (values : List Val) →
        GiveTheSame sort operator (meaning [] [] values (expr_of vector term) ∷ []) []) }
{
    let Op::BvXor = operator else {
        return None;
    };
    let Sort::Bits(width) = sort else {
        return None;
    };
    let word = Word::new(width, 0)?;
    Some(Term::Const(Value::Num(word)))
}

/// The same terms, in memory of their own.
fn copied(alloc: Global, terms: &[Term<BvTheory>]) -> Result<Terms<BvTheory>, Want>
    ensures { IfOk result (λ copies. exprs_of vector copies.items.items ≡ exprs_of vector terms.now) }
{
    let mut copies = Terms::with_capacity(alloc, terms.len())?;
    for term in terms {
        let copy = term.copy(alloc)?;
        copies.push(copy)?;
    }
    Ok(copies)
}
