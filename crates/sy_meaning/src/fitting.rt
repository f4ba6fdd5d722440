// Which terms evaluation takes: those that have a sort.
ghost use Rattle.std.specs.Prelude.{◌≡◌, if◌then◌else◌, slice_get, IfOk, MatchOption, Some, None};
ghost use Rattle.std.specs.Option.{option_map};
ghost use Rattle.sy_terms.specs.Denoted.{val_of, expr_of, exprs_of, sorts_of, AreValid};
ghost use Rattle.sy_meaning.specs.Signatures.{scope_and_wanted};
ghost use Rattle.sy_terms.specs.Theories.{valid, sort_of_value};
ghost use Rattle.sy_terms.specs.Fitting.{sort_in, sorts_in, same_sorts, given_by, called_sort, signature_of};
ghost use Rattle.sy_terms.specs.Sorts.{sort_of};

use crate::evaluation::joined;
use std::alloc::Global;
use sy_terms::{Def, Fun, Op, Seq, Sort, Sorted, Term, Terms, Theory, Value, Want};

/// The sorts that a function takes, and the sort of its value.
#[derive(Drop)]
pub struct Signature {
    /// The sorts of its arguments.
    pub takes: Seq<Sort>,
    /// The sort of its value.
    pub gives: Sort,
}

/// The sort of a term, under definitions and signatures of the functions to be found, where the values in force have
/// these sorts; `None` exactly where the term doesn't fit.
#[cycle(term_sort)]
pub fn term_sort<T: Theory>(
    alloc: Global,
    defs: &[Def<T>],
    wanted: &[Signature],
    sorts: &[Sort],
    term: &Term<T>,
) -> Result<Option<Sort>, Want>
    ensures { IfOk result (λ sort. sort ≡
        sort_in (scope_and_wanted T.owned defs.now wanted.now) sorts.now (expr_of T.denotes term.now)) }
{
    match term {
        Term::Const(value) => Ok(constant_sort::<T>(value)),
        Term::Var(position) => Ok(variable_sort(sorts, *position)),
        Term::App(operator, arguments) => {
            let found = term_sorts(alloc, defs, wanted, sorts, arguments)?;
            match found {
                Some(found) => Ok(operator_sort::<T>(operator, found.as_slice())),
                None => Ok(None),
            }
        }
        Term::Call(function, arguments) => {
            let found = term_sorts(alloc, defs, wanted, sorts, arguments)?;
            match found {
                Some(found) => Ok(function_sort(defs, wanted, function, found.as_slice())),
                None => Ok(None),
            }
        }
        Term::Let(bound, inner) => {
            let found = term_sorts(alloc, defs, wanted, sorts, bound)?;
            match found {
                Some(found) => {
                    let longer = joined(alloc, sorts, found.as_slice())?;
                    term_sort(alloc, defs, wanted, longer.as_slice(), inner)
                }
                None => Ok(None),
            }
        }
    }
}

/// The sorts of terms; `None` exactly where one of them doesn't fit.
#[cycle(term_sort)]
fn term_sorts<T: Theory>(
    alloc: Global,
    defs: &[Def<T>],
    wanted: &[Signature],
    sorts: &[Sort],
    terms: &Terms<T>,
) -> Result<Option<Vec<Sort>>, Want>
    ensures { IfOk result (λ found. option_map (λ all. all.items) found ≡
        sorts_in (scope_and_wanted T.owned defs.now wanted.now) sorts.now (exprs_of T.denotes terms.now.items.items)) }
{
    let mut found = Vec::with_capacity(alloc, terms.len())?;
    for term in terms.as_slice() {
        match term_sort(alloc, defs, wanted, sorts, term)? {
            Some(sort) => found.push(sort)?,
            None => return Ok(None),
        }
    }
    Ok(Some(found))
}

/// The sorts of values; `None` exactly where one of them is no value of its sort.
pub fn value_sorts<T: Theory>(
    alloc: Global,
    values: &[Value<T::Num>],
) -> Result<Option<Vec<Sort>>, Want>
    ensures { IfOk result (λ found. MatchOption found (AreValid T.denotes values.now →
        ⊥) (λ all. (AreValid T.denotes values.now) × (all.items ≡ sorts_of T.denotes values.now))) }
{
    let mut found = Vec::with_capacity(alloc, values.len())?;
    for value in values {
        match constant_sort::<T>(value) {
            Some(sort) => found.push(sort)?,
            None => return Ok(None),
        }
    }
    Ok(Some(found))
}

/// The sort of a constant; `None` exactly where its number is no value of its sort.
fn constant_sort<T: Theory>(value: &Value<T::Num>) -> Option<Sort>
    ensures { result ≡
        (if valid (val_of T.denotes value.now) then Some (sort_of_value (val_of T.denotes value.now)) else None) }
{
    match value {
        Value::Truth(_) => Some(Sort::Bool),
        Value::Num(number) => {
            let sort = T::value_sort(value);
            match T::of_number(sort, T::number(*number)) {
                Some(_) => Some(sort),
                None => None,
            }
        }
    }
}

/// The sort of a variable; `None` exactly where there is none at the position.
fn variable_sort(sorts: &[Sort], position: u32) -> Option<Sort>
    ensures { result ≡ slice_get sorts.now position }
{
    let sort = sorts.get(position as usize)?;
    Some(*sort)
}

/// The sort of an operator's value.
fn operator_sort<T: Theory>(operator: &Op, sorts: &[Sort]) -> Option<Sort>
    ensures { result ≡ (if T.owned operator.now then given_by (sort_of operator.now sorts.now) else None) }
{
    if !T::owns(operator) {
        return None;
    }
    match T::sort_of(operator, sorts) {
        Sorted::Is(sort) => Some(sort),
        Sorted::Mismatch => None,
        Sorted::BadWidth => None,
    }
}

/// The sort of a function's value.
fn function_sort<T: Theory>(
    defs: &[Def<T>],
    wanted: &[Signature],
    function: &Fun,
    sorts: &[Sort],
) -> Option<Sort>
    ensures { result ≡
        called_sort (signature_of (scope_and_wanted T.owned defs.now wanted.now) function.now) (Some sorts.now) }
{
    match function {
        Fun::Defined(number) => {
            let def = defs.get(*number as usize)?;
            given(sorts, def.args.as_slice(), def.sort)
        }
        Fun::Wanted(number) => {
            let signature = wanted.get(*number as usize)?;
            given(sorts, signature.takes.as_slice(), signature.gives)
        }
    }
}

/// The sort that a function gives; `None` where the sorts are others than it takes.
fn given(sorts: &[Sort], takes: &[Sort], gives: Sort) -> Option<Sort>
    ensures { result ≡ (if same_sorts sorts.now takes.now then Some gives else None) }
{
    if are_same(sorts, takes) {
        Some(gives)
    } else {
        None
    }
}

/// Whether the sorts are the same.
fn are_same(first: &[Sort], second: &[Sort]) -> bool
    ensures { result ≡ same_sorts first.now second.now }
{
    first == second
}
