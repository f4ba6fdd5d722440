// Values as numbers of 64 bits, and those of a term at many tuples.
ghost use Rattle.std.specs.Prelude.{◌≡◌, true, Some, IfOk, IsTrue};
ghost use Rattle.std.specs.Option.{is_some};
ghost use Rattle.sy_terms.specs.Denoted.{expr_of};
ghost use Rattle.sy_terms.specs.Definitions.{DefinitionsFit, scope_of};
ghost use Rattle.sy_terms.specs.Fitting.{sort_in};

use std::alloc::Global;
use sy_loop_bodies::number;
use sy_meaning::{Eval, evaluate, term_sort, value_sorts};
use sy_terms::{Defs, Sort, Term, Theory, Value, Values, Want};

/// The lowest 64 bits of the value as a number: a vector is the number of its bits, a truth value 0 or 1.
pub(crate) fn word_of<T: Theory>(value: &Value<T::Num>) -> u64 {
    number::<T>(value).rem_euclid(1 << 64) as u64
}

/// The value of the sort with these lowest 64 bits; `None` where there is none.
pub(crate) fn value_of<T: Theory>(sort: Sort, word: u64) -> Option<Value<T::Num>> {
    let number = match sort {
        Sort::Bool => return Some(Value::Truth(word == 1)),
        Sort::Int if word >= 1 << 63 => i128::from(word) - (1 << 64),
        Sort::Int | Sort::Bits(_) => i128::from(word),
    };
    let number = T::of_number(sort, number)?;
    Some(Value::Num(number))
}

/// The term's values at the tuples; `None` where it isn't a term over values of these sorts, a tuple has other ones, or
/// a value leaves the 128 bits.
pub(crate) fn words_at<T: Theory>(
    alloc: Global,
    defs: &Defs<T>,
    sorts: &[Sort],
    tuples: &[Values<T>],
    term: &Term<T>,
) -> Result<Option<Vec<u64>>, Want> {
    let defined = are_defined(alloc, defs)?;
    if !defined {
        return Ok(None);
    }
    let sort = term_sort(alloc, defs.as_slice(), &[], sorts, term)?;
    if sort.is_none() {
        return Ok(None);
    }
    let mut words = Vec::with_capacity(alloc, tuples.len())?;
    for tuple in tuples {
        match word_at(alloc, defs, sorts, tuple.as_slice(), term)? {
            Some(word) => words.push(word)?,
            None => return Ok(None),
        }
    }
    Ok(Some(words))
}

/// The term's value at the tuple; `None` where that isn't of these sorts, or a value leaves the 128 bits.
fn word_at<T: Theory>(
    alloc: Global,
    defs: &Defs<T>,
    sorts: &[Sort],
    tuple: &[Value<T::Num>],
    term: &Term<T>,
) -> Result<Option<u64>, Want>
    requires definitions { DefinitionsFit T.owned T.denotes defs.now }
    requires term { is_some (sort_in (scope_of T.owned defs.now) sorts.now (expr_of T.denotes term.now)) ≡ true }
{
    let Some(found) = value_sorts::<T>(alloc, tuple)? else {
        return Ok(None);
    };
    if !are_same(found.as_slice(), sorts) {
        return Ok(None);
    }
    match evaluate(alloc, defs, tuple, term) {
        Ok(value) => Ok(Some(word_of::<T>(&value))),
        Err(Eval::Range) => Ok(None),
        Err(Eval::Want) => Err(Want {}),
    }
}

/// Whether the sorts are the same.
fn are_same(first: &[Sort], second: &[Sort]) -> bool
    ensures { IsTrue result → first.now ≡ second.now }
{
    first == second
}

/// Whether the sort is there, and this one.
fn is_sort(found: Option<Sort>, sort: Sort) -> bool
    ensures { IsTrue result → found ≡ Some sort }
{
    match found {
        Some(found) => found == sort,
        None => false,
    }
}

/// Whether each definition fits under those before it, as those of a problem do.
fn are_defined<T: Theory>(alloc: Global, defs: &Defs<T>) -> Result<bool, Want>
    ensures { IfOk result (λ yes. IsTrue yes → DefinitionsFit T.owned T.denotes defs.now) }
{
    let all = defs.as_slice();
    for number in 0..all.len() {
        let def = &all[number];
        let sort = term_sort(alloc, &all[..number], &[], def.args.as_slice(), &def.body)?;
        if !is_sort(sort, def.sort) {
            return Ok(false);
        }
    }
    Ok(true)
}
