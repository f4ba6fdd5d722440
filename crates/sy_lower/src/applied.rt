// Applications whose arguments are lowered.
ghost use Rattle.std.specs.Prelude.{◌≡◌, ◌+◌, IfOk};
ghost use Rattle.sy_terms.specs.Values.{Whole};
ghost use Rattle.sy_terms.specs.Denoted.{expr_of, exprs_of};
ghost use Rattle.sy_lower_laws.specs.Lowering as spec;
ghost use Rattle.sy_lower.specs.Stored.{progress_in, Gives, lowered_terms};

use crate::divisor::divisor;
use crate::progress::Progress;
use crate::terms::{binary, number, ternary, unary};
use std::alloc::{AllocError, Global};
use sy_meaning_integers::IntTheory;
use sy_terms::{Op, Sort, Term, Terms, Want};

/// The quotient of a term by another one.
fn quotient_by(
    alloc: Global,
    progress: &mut Progress,
    dividend: Term<IntTheory>,
    divided_by: &Term<IntTheory>,
) -> Result<Term<IntTheory>, Want>
    ensures { IfOk result (λ term. Gives (expr_of Whole term) (progress_in progress.new)
        (spec.quotient_by (progress_in progress.old) (expr_of Whole dividend) (expr_of Whole divided_by.now))) }
{
    match divisor(divided_by) {
        Some(divisor) => {
            let quotient = progress.divide(alloc, dividend, divisor)?;
            Ok(Term::Var(quotient))
        }
        None => {
            let copy = divided_by.copy(alloc)?;
            let term = binary(alloc, Op::Div, dividend, copy)?;
            Ok(term)
        }
    }
}

/// The variable after this one, where 32 bits count it.
fn next_variable(variable: u32) -> Result<u32, Want>
    ensures { IfOk result (λ next. next ≡ variable + 1) }
{
    match variable.checked_add(1) {
        Some(next) => Ok(next),
        None => Err(AllocError),
    }
}

/// The remainder of the division of a term by another one.
fn remainder_by(
    alloc: Global,
    progress: &mut Progress,
    dividend: Term<IntTheory>,
    divided_by: &Term<IntTheory>,
) -> Result<Term<IntTheory>, Want>
    ensures { IfOk result (λ term. Gives (expr_of Whole term) (progress_in progress.new)
        (spec.remainder_by (progress_in progress.old) (expr_of Whole dividend) (expr_of Whole divided_by.now))) }
{
    match divisor(divided_by) {
        Some(divisor) => {
            let quotient = progress.divide(alloc, dividend, divisor)?;
            let remainder = next_variable(quotient)?;
            Ok(Term::Var(remainder))
        }
        None => {
            let copy = divided_by.copy(alloc)?;
            let term = binary(alloc, Op::Mod, dividend, copy)?;
            Ok(term)
        }
    }
}

/// The quotient of a term by each of the others, in order.
fn quotients(
    alloc: Global,
    progress: &mut Progress,
    dividend: Term<IntTheory>,
    divisors: &[Term<IntTheory>],
) -> Result<Term<IntTheory>, Want>
    ensures { IfOk result (λ term. Gives (expr_of Whole term) (progress_in progress.new)
        (spec.quotients (progress_in progress.old) (expr_of Whole dividend) (exprs_of Whole divisors.now))) }
{
    let mut quotient = dividend;
    for divisor in divisors {
        quotient = quotient_by(alloc, progress, quotient, divisor)?;
    }
    Ok(quotient)
}

/// The quotient of the first term by each further one, in order.
fn divided(
    alloc: Global,
    progress: &mut Progress,
    terms: &[Term<IntTheory>],
) -> Result<Term<IntTheory>, Want>
    ensures { IfOk result (λ term. Gives (expr_of Whole term) (progress_in progress.new)
        (spec.divided (progress_in progress.old) (exprs_of Whole terms.now))) }
{
    match terms.split_first() {
        Some((dividend, divisors)) => {
            let dividend = dividend.copy(alloc)?;
            let quotient = quotients(alloc, progress, dividend, divisors)?;
            Ok(quotient)
        }
        None => {
            let nothing = Terms::new(alloc);
            Ok(Term::App(Op::Div, nothing))
        }
    }
}

/// The remainder of the division of the first of two terms by the second.
fn reduced(
    alloc: Global,
    progress: &mut Progress,
    terms: Terms<IntTheory>,
) -> Result<Term<IntTheory>, Want>
    ensures { IfOk result (λ term. Gives (expr_of Whole term) (progress_in progress.new)
        (spec.reduced (progress_in progress.old) (exprs_of Whole terms.items.items))) }
{
    let pair = terms.as_slice();
    if pair.len() != 2 {
        return Ok(Term::App(Op::Mod, terms));
    }
    let dividend = pair[0].copy(alloc)?;
    let remainder = remainder_by(alloc, progress, dividend, &pair[1])?;
    Ok(remainder)
}

/// Whether the term is a variable.
fn is_variable(term: &Term<IntTheory>) -> bool
    ensures { result ≡ spec.is_variable (expr_of Whole term.now) }
{
    match term {
        Term::Const(_) => false,
        Term::Var(_) => true,
        Term::App(_, _) => false,
        Term::Call(_, _) => false,
        Term::Let(_, _) => false,
    }
}

/// The term itself where it is a variable, and else a fresh integer that equals it.
fn as_variable(
    alloc: Global,
    progress: &mut Progress,
    term: Term<IntTheory>,
) -> Result<Term<IntTheory>, Want>
    ensures { IfOk result (λ found. Gives (expr_of Whole found) (progress_in progress.new)
        (spec.as_variable (progress_in progress.old) (expr_of Whole term))) }
{
    if is_variable(&term) {
        return Ok(term);
    }
    let variable = progress.equate(alloc, Sort::Int, term)?;
    Ok(variable)
}

/// The term where it isn't below 0, and else its negation.
fn magnitude(alloc: Global, term: &Term<IntTheory>) -> Result<Term<IntTheory>, Want>
    ensures { IfOk result (λ found. expr_of Whole found ≡ spec.magnitude (expr_of Whole term.now)) }
{
    let tested = term.copy(alloc)?;
    let test = binary(alloc, Op::Le, number(0), tested)?;
    let negated = term.copy(alloc)?;
    let negation = unary(alloc, Op::Neg, negated)?;
    let itself = term.copy(alloc)?;
    let choice = ternary(alloc, Op::Ite, test, itself, negation)?;
    Ok(choice)
}

/// The absolute value of the only term.
fn unsigned(
    alloc: Global,
    progress: &mut Progress,
    terms: Terms<IntTheory>,
) -> Result<Term<IntTheory>, Want>
    ensures { IfOk result (λ term. Gives (expr_of Whole term) (progress_in progress.new)
        (spec.unsigned (progress_in progress.old) (exprs_of Whole terms.items.items))) }
{
    let only = terms.as_slice();
    if only.len() != 1 {
        return Ok(Term::App(Op::Abs, terms));
    }
    let term = only[0].copy(alloc)?;
    let variable = as_variable(alloc, progress, term)?;
    let found = magnitude(alloc, &variable)?;
    Ok(found)
}

/// The operator at lowered terms.
pub(crate) fn applied(
    alloc: Global,
    progress: &mut Progress,
    operator: &Op,
    terms: Terms<IntTheory>,
) -> Result<Term<IntTheory>, Want>
    ensures { IfOk result (λ term. Gives (expr_of Whole term) (progress_in progress.new)
        (spec.applied operator.now (lowered_terms (progress_in progress.old) (exprs_of Whole terms.items.items)))) }
{
    match operator {
        Op::Div => {
            let found = divided(alloc, progress, terms.as_slice())?;
            Ok(found)
        }
        Op::Mod => {
            let found = reduced(alloc, progress, terms)?;
            Ok(found)
        }
        Op::Abs => {
            let found = unsigned(alloc, progress, terms)?;
            Ok(found)
        }
        _ => Ok(Term::App(*operator, terms)),
    }
}
