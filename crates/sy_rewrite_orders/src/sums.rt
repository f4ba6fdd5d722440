// The sums that vectors of terms are, over the variables.
ghost use Rattle.std.specs.Prelude.{◌≡◌, ◌≤◌, [], List, slice_get, Some, IfOk, IfSome};
ghost use Rattle.sy_terms.specs.Values.{Val};
ghost use Rattle.sy_terms.specs.declared.sort.Sort.TheVariants as bits;
ghost use Rattle.sy_terms.specs.Denoted.{val_of, expr_of, exprs_of};
ghost use Rattle.sy_terms.specs.Meaning.{meaning, meanings, value_at_position};
ghost use Rattle.sy_meaning_words.specs.Vectors.{vector};
ghost use Rattle.sy_rewrite_orders.specs.Sums.{HasSum, HaveSums, BeginWithSorts};

use crate::operators::{applied, makes_sums};
use std::alloc::Global;
use sy_bits_sums::Sum;
use sy_meaning_words::{BvTheory, Word};
use sy_terms::{Sort, Term, Value, Want};

/// The sum that a term is where the first values are of these sorts; `None` where that isn't known.
#[cycle(sums)]
pub(crate) fn sum_of(
    alloc: Global,
    sorts: &[Sort],
    term: &Term<BvTheory>,
) -> Result<Option<Sum>, Want>
    ensures { IfOk result (λ found. IfSome found (λ sum. (values : List Val) →
        BeginWithSorts sorts.now values → HasSum values sum (meaning [] [] values (expr_of vector term.now)))) }
{
    match term {
        Term::Const(value) => {
            let found = constant_sum(alloc, value)?;
            Ok(found)
        }
        Term::Var(position) => {
            let found = variable_sum(alloc, sorts, *position)?;
            Ok(found)
        }
        Term::App(operator, arguments) => {
            if !makes_sums(*operator) {
                return Ok(None);
            }
            let Some(sums) = sums_of(alloc, sorts, arguments.as_slice())? else {
                return Ok(None);
            };
            let found = applied(alloc, *operator, sums.as_slice())?;
            Ok(found)
        }
        Term::Call(_, _) => Ok(None),
        Term::Let(_, _) => Ok(None),
    }
}

/// The sums that terms are; `None` where that of one of them isn't known.
#[cycle(sums)]
fn sums_of(
    alloc: Global,
    sorts: &[Sort],
    terms: &[Term<BvTheory>],
) -> Result<Option<Vec<Sum>>, Want>
    ensures { IfOk result (λ found. IfSome found (λ sums. (values : List Val) → BeginWithSorts sorts.now values →
        HaveSums values sums.items (meanings [] [] values (exprs_of vector terms.now)))) }
{
    let mut sums = Vec::with_capacity(alloc, terms.len())?;
    for term in terms {
        let Some(sum) = sum_of(alloc, sorts, term)? else {
            return Ok(None);
        };
        sums.push(sum)?;
    }
    Ok(Some(sums))
}

/// The sum of a constant, where it is a vector.
fn constant_sum(alloc: Global, value: &Value<Word>) -> Result<Option<Sum>, Want>
    ensures { IfOk result (λ found.
        IfSome found (λ sum. (values : List Val) → HasSum values sum (val_of vector value.now))) }
{
    match value {
        Value::Truth(_) => Ok(None),
        Value::Num(word) => {
            let sum = word_sum(alloc, *word)?;
            Ok(Some(sum))
        }
    }
}

/// The sum that is a word's number.
fn word_sum(alloc: Global, word: Word) -> Result<Sum, Want>
    ensures { IfOk result (λ sum. (values : List Val) → HasSum values sum (vector word)) }
{
    let sum = Sum::constant(alloc, u32::from(word.width()), word.bits())?;
    Ok(sum)
}

/// The sum of a variable, where it is a vector.
fn variable_sum(alloc: Global, sorts: &[Sort], position: u32) -> Result<Option<Sum>, Want>
    ensures { IfOk result (λ found. IfSome found (λ sum. (values : List Val) →
        BeginWithSorts sorts.now values → HasSum values sum (value_at_position values position))) }
{
    let Some(width) = width_at(sorts, position) else {
        return Ok(None);
    };
    let sum = Sum::value(alloc, u32::from(width), position)?;
    Ok(Some(sum))
}

/// The width of the variable at the position, where it is a vector of at most 64 bits.
fn width_at(sorts: &[Sort], position: u32) -> Option<u8>
    ensures within { IfSome result (λ width. width ≤ 64) }
    ensures sort { IfSome result (λ width. slice_get sorts.now position ≡ Some (bits.Bits width)) }
{
    match sorts.get(position as usize)? {
        Sort::Bits(width) if *width <= 64 => Some(*width),
        _ => None,
    }
}
