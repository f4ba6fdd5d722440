// The sorts of what terms mean, over the variables.
ghost use Rattle.std.specs.Prelude.{◌≡◌, [], List, slice_get, IsTrue, IfOk, IfSome};
ghost use Rattle.sy_terms.specs.Values.{Val};
ghost use Rattle.sy_terms.specs.Denoted.{val_of, expr_of, exprs_of};
ghost use Rattle.sy_terms.specs.Meaning.{meaning, meanings};
ghost use Rattle.sy_terms.specs.Operators.{op_value};
ghost use Rattle.sy_terms.specs.Theories.{sort_of_value};
ghost use Rattle.sy_terms.specs.declared.sort.Sort.TheVariants as kinds;
ghost use Rattle.sy_meaning_words.specs.Vectors.{vector};
ghost use Rattle.sy_query_normal.specs.Truths as spec;
ghost use Rattle.sy_rewrite_orders.specs.Sums.{BeginWithSorts};

use std::alloc::Global;
use sy_meaning_words::{BvTheory, Word};
use sy_terms::{Op, Sort, Sorted, Term, Value, Want, same_sort};
use sy_terms_operators::operator_sort;

/// The sort of a term over variables of these sorts; `None` where that isn't known.
#[cycle(sorts)]
fn sort_of(alloc: Global, sorts: &[Sort], term: &Term<BvTheory>) -> Result<Option<Sort>, Want>
    ensures { IfOk result (λ found. IfSome found (λ sort. (values : List Val) →
        BeginWithSorts sorts.now values → sort_of_value (meaning [] [] values (expr_of vector term.now)) ≡ sort)) }
{
    match term {
        Term::Const(value) => Ok(Some(constant_sort(value))),
        Term::Var(position) => Ok(variable_sort(sorts, *position)),
        Term::App(operator, arguments) => {
            let found = application_sort(alloc, sorts, *operator, arguments.as_slice())?;
            Ok(found)
        }
        Term::Call(_, _) => Ok(None),
        Term::Let(_, _) => Ok(None),
    }
}

/// The sort of the operator at terms over variables of these sorts; `None` where that isn't known.
#[cycle(sorts)]
pub(crate) fn application_sort(
    alloc: Global,
    sorts: &[Sort],
    operator: Op,
    terms: &[Term<BvTheory>],
) -> Result<Option<Sort>, Want>
    ensures { IfOk result (λ found. IfSome found (λ sort. (values : List Val) → BeginWithSorts sorts.now values →
        sort_of_value (op_value operator (meanings [] [] values (exprs_of vector terms.now))) ≡ sort)) }
{
    if gives_truth(operator) {
        return Ok(Some(Sort::Bool));
    }
    let mut found = Vec::with_capacity(alloc, terms.len())?;
    for term in terms {
        let Some(sort) = sort_of(alloc, sorts, term)? else {
            return Ok(None);
        };
        found.push(sort)?;
    }
    match operator_sort(&operator, found.as_slice()) {
        Sorted::Is(sort) => Ok(Some(sort)),
        Sorted::Mismatch => Ok(None),
        Sorted::BadWidth => Ok(None),
    }
}

/// Whether the operator's value is a truth value at any arguments.
fn gives_truth(operator: Op) -> bool
    ensures { result ≡ spec.gives_truth operator }
{
    matches!(
        operator,
        Op::Not
            | Op::And
            | Op::Or
            | Op::Implies
            | Op::Equal
            | Op::Distinct
            | Op::BvUlt
            | Op::BvUle
            | Op::BvUgt
            | Op::BvUge
            | Op::BvSlt
            | Op::BvSle
            | Op::BvSgt
            | Op::BvSge
    )
}

/// The sort of a constant.
fn constant_sort(value: &Value<Word>) -> Sort
    ensures { result ≡ sort_of_value (val_of vector value.now) }
{
    match value {
        Value::Truth(_) => Sort::Bool,
        Value::Num(word) => Sort::Bits(word.width()),
    }
}

/// The sort of the variable at the position.
fn variable_sort(sorts: &[Sort], position: u32) -> Option<Sort>
    ensures { result ≡ slice_get sorts.now position }
{
    let sort = sorts.get(position as usize)?;
    Some(*sort)
}

/// The width of a term over variables of these sorts, where it is known to be a vector.
pub(crate) fn width_of(
    alloc: Global,
    sorts: &[Sort],
    term: &Term<BvTheory>,
) -> Result<Option<u8>, Want>
    ensures { IfOk result (λ found. IfSome found (λ width. (values : List Val) → BeginWithSorts sorts.now values →
        sort_of_value (meaning [] [] values (expr_of vector term.now)) ≡ kinds.Bits width)) }
{
    let Some(sort) = sort_of(alloc, sorts, term)? else {
        return Ok(None);
    };
    let Sort::Bits(width) = sort else {
        return Ok(None);
    };
    Ok(Some(width))
}

/// Whether a term over variables of these sorts is known to have the sort.
pub(crate) fn has_sort(
    alloc: Global,
    sorts: &[Sort],
    sort: Sort,
    term: &Term<BvTheory>,
) -> Result<bool, Want>
    ensures { IfOk result (λ yes. IsTrue yes → (values : List Val) →
        BeginWithSorts sorts.now values → sort_of_value (meaning [] [] values (expr_of vector term.now)) ≡ sort) }
{
    let Some(found) = sort_of(alloc, sorts, term)? else {
        return Ok(false);
    };
    Ok(same_sort(&found, &sort))
}

/// Whether two terms over variables of these sorts are known to have one sort.
pub(crate) fn have_one_sort(
    alloc: Global,
    sorts: &[Sort],
    first: &Term<BvTheory>,
    second: &Term<BvTheory>,
) -> Result<bool, Want>
    ensures { IfOk result (λ yes. IsTrue yes → (values : List Val) →
        BeginWithSorts sorts.now values → sort_of_value (meaning [] [] values (expr_of vector first.now)) ≡
        sort_of_value (meaning [] [] values (expr_of vector second.now))) }
{
    let Some(sort) = sort_of(alloc, sorts, second)? else {
        return Ok(false);
    };
    let yes = has_sort(alloc, sorts, sort, first)?;
    Ok(yes)
}
