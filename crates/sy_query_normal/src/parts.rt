// The arguments of operators that take them in any order.
ghost use Rattle.std.specs.Prelude.{
  ◌≡◌,
  ◌≤◌,
  ◌<◌,
  ◌++◌,
  ℕ,
  [],
  ◌∷◌,
  List,
  length,
  slice_get,
  Some,
  IsTrue,
  IfOk,
  IfSome,
  OnOk,
};
ghost use Rattle.std.specs.Option.{option_map};
ghost use Rattle.sy_terms.specs.Values.{Val};
ghost use Rattle.sy_terms.specs.Denoted.{expr_of, exprs_of};
ghost use Rattle.sy_terms.specs.Expr.{Apply};
ghost use Rattle.sy_terms.specs.Meaning.{meaning, meanings};
ghost use Rattle.sy_terms.specs.Operators.{op_value};
ghost use Rattle.sy_terms.specs.Theories.{sort_of_value};
ghost use Rattle.sy_terms.specs.declared.sort.Sort.{Sort};
ghost use Rattle.sy_meaning_words.specs.Vectors.{vector};
ghost use Rattle.sy_query_normal.specs.Unordered as spec;
ghost use Rattle.sy_query_normal.specs.Unordered.{GiveTheSame, IsUnordered};
ghost use Rattle.sy_rewrite_orders.specs.Sums.{BeginWithSorts};

use crate::order::is_before_among;
use crate::sorts::has_sort;
use std::alloc::Global;
use sy_meaning_words::BvTheory;
use sy_query_base::copied_terms;
use sy_terms::{Op, Sort, Term, Terms, Want};

/// Whether each of the terms stands before the next among them, and none of them is the operator at some.
pub(crate) fn are_in_order(operator: Op, terms: &[Term<BvTheory>]) -> bool {
    for place in 1..terms.len() {
        if !is_before_among(terms, &terms[place - 1], &terms[place]) {
            return false;
        }
    }
    for term in terms {
        if arguments_under(operator, term).is_some() {
            return false;
        }
    }
    true
}

/// How many terms there are, of those under the operator their arguments.
pub(crate) fn count(operator: Op, terms: &[Term<BvTheory>]) -> usize {
    let mut many: usize = 0;
    for term in terms {
        let more = match arguments_under(operator, term) {
            Some(arguments) => arguments.len(),
            None => 1,
        };
        many = many.saturating_add(more);
    }
    many
}

/// The terms, with the arguments of those under the operator in their places.
pub(crate) fn flattened(
    alloc: Global,
    operator: Op,
    terms: &[Term<BvTheory>],
) -> Result<Vec<Term<BvTheory>>, Want>
    ensures { IfOk result (λ parts. (sort : Sort) → IsUnordered sort operator → (values : List Val) (first : Val) →
        op_value operator (first ∷ meanings [] [] values (exprs_of vector parts.items)) ≡
        op_value operator (first ∷ meanings [] [] values (exprs_of vector terms.now))) }
{
    let mut parts = Vec::with_capacity(alloc, terms.len())?;
    for term in terms {
        let mut more = parts_of(alloc, operator, term)?;
        parts.append(&mut more)?;
    }
    Ok(parts)
}

/// The arguments of a term that is the operator at some, and else the term.
fn parts_of(alloc: Global, operator: Op, term: &Term<BvTheory>) -> Result<Vec<Term<BvTheory>>, Want>
    ensures { IfOk result (λ parts. (sort : Sort) → IsUnordered sort operator → (values : List Val) (first : Val) →
        op_value operator (first ∷ meanings [] [] values (exprs_of vector parts.items)) ≡
        op_value operator (first ∷ meaning [] [] values (expr_of vector term.now) ∷ [])) }
{
    match arguments_under(operator, term) {
        Some(arguments) => {
            let parts = copied_terms(alloc, arguments.as_slice())?;
            Ok(parts)
        }
        None => {
            let mut parts = Vec::with_capacity(alloc, 1)?;
            let part = term.copy(alloc)?;
            parts.push(part)?;
            Ok(parts)
        }
    }
}

/// The arguments of the term, where it is the operator at one or more.
fn arguments_under<'a>(operator: Op, term: &'a Term<BvTheory>) -> Option<&'a Terms<BvTheory>>
    ensures is { IfSome result (λ arguments. expr_of vector term.now ≡
        Apply operator (exprs_of vector arguments.now.items.items)) }
    ensures some { IfSome result (λ arguments. 1 ≤ length arguments.now.items.items) }
{
    let Term::App(inner, arguments) = term else {
        return None;
    };
    if !inner.equals(&operator) {
        return None;
    }
    if arguments.len() == 0 {
        return None;
    }
    Some(arguments)
}

/// The parts in order and without doubles; `None` where one of them isn't known to have the sort.
pub(crate) fn in_order(
    alloc: Global,
    sorts: &[Sort],
    operator: Op,
    sort: Sort,
    parts: &[Term<BvTheory>],
) -> Result<Option<Vec<Term<BvTheory>>>, Want>
    ensures { IfOk result (λ found. IfSome found (λ ordered. IsUnordered sort operator →
        (values : List Val) → BeginWithSorts sorts.now values → GiveTheSame sort operator
        (meanings [] [] values (exprs_of vector ordered.items)) (meanings [] [] values (exprs_of vector parts.now)))) }
{
    let mut ordered = Vec::with_capacity(alloc, parts.len())?;
    for part in parts {
        if !has_sort(alloc, sorts, sort, part)? {
            return Ok(None);
        }
        insert(alloc, operator, parts, &mut ordered, part)?;
    }
    Ok(Some(ordered))
}

/// Puts the part in its place among parts in order, of all these. Where it is there already, the two are one part or
/// cancel each other.
fn insert(
    alloc: Global,
    operator: Op,
    all: &[Term<BvTheory>],
    parts: &mut Vec<Term<BvTheory>>,
    part: &Term<BvTheory>,
) -> Result<(), Want>
    ensures { OnOk result ((sort : Sort) → IsUnordered sort operator →
        (values : List Val) → sort_of_value (meaning [] [] values (expr_of vector part.now)) ≡ sort →
        GiveTheSame sort operator (meanings [] [] values (exprs_of vector parts.new.items))
        (meaning [] [] values (expr_of vector part.now) ∷ meanings [] [] values (exprs_of vector parts.old.items))) }
{
    let place = place_of(all, parts.as_slice(), part);
    if !is_at(parts.as_slice(), place, part) {
        let copy = part.copy(alloc)?;
        parts.insert(place, copy)?;
        return Ok(());
    }
    if cancels(operator) {
        parts.remove(place);
        return Ok(());
    }
    Ok(())
}

/// Whether two equal arguments of the operator cancel each other; of the other operators they stand for one.
fn cancels(operator: Op) -> bool
    ensures { result ≡ spec.cancels operator }
{
    matches!(operator, Op::BvXor)
}

/// The place of the first part that doesn't stand before the given one among all.
fn place_of(all: &[Term<BvTheory>], parts: &[Term<BvTheory>], part: &Term<BvTheory>) -> usize
    ensures { result ≤ length parts.now }
{
    for place in 0..parts.len() {
        if !is_before_among(all, &parts[place], part) {
            return place;
        }
    }
    parts.len()
}

/// Whether the part stands at the place.
fn is_at(parts: &[Term<BvTheory>], place: usize, part: &Term<BvTheory>) -> bool
    ensures within { IsTrue result → place < length parts.now }
    ensures is { IsTrue result →
        option_map (expr_of vector) (slice_get parts.now place) ≡ Some (expr_of vector part.now) }
{
    match parts.get(place) {
        Some(other) => other.equals(part),
        None => false,
    }
}
