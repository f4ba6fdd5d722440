// What names in force stand for.
ghost use Rattle.std.specs.Prelude.{◌≡◌, IfOk};
ghost use Rattle.sy_terms.specs.Values.{Whole};
ghost use Rattle.sy_terms.specs.Denoted.{expr_of, exprs_of};
ghost use Rattle.sy_lower_laws.specs.Lowering as spec;
ghost use Rattle.sy_lower.specs.Stored.{progress_in, Gives, lowered_term};

use crate::progress::Progress;
use std::alloc::{AllocError, Global};
use sy_meaning::term_sort;
use sy_meaning_integers::IntTheory;
use sy_terms::{Term, Value, Want};

/// What the name at a position stands for; beyond the names, false.
pub(crate) fn name_at(
    alloc: Global,
    names: &[Term<IntTheory>],
    position: u32,
) -> Result<Term<IntTheory>, Want>
    ensures { IfOk result (λ term. expr_of Whole term ≡ spec.name_at (exprs_of Whole names.now) position) }
{
    match names.get(position as usize) {
        Some(term) => {
            let found = term.copy(alloc)?;
            Ok(found)
        }
        None => Ok(Term::Const(Value::Truth(false))),
    }
}

/// Whether the term is a variable or a constant.
fn is_name(term: &Term<IntTheory>) -> bool
    ensures { result ≡ spec.is_name (expr_of Whole term.now) }
{
    match term {
        Term::Const(_) => true,
        Term::Var(_) => true,
        Term::App(_, _) => false,
        Term::Call(_, _) => false,
        Term::Let(_, _) => false,
    }
}

/// What the name of a bound term stands for: the lowered term where it is a variable or a constant, and else a fresh
/// variable of its sort that equals it.
pub(crate) fn named(
    alloc: Global,
    progress: &mut Progress,
    term: Term<IntTheory>,
) -> Result<Term<IntTheory>, Want>
    ensures { IfOk result (λ name. Gives (expr_of Whole name) (progress_in progress.new)
        (spec.named (lowered_term (progress_in progress.old) (expr_of Whole term)))) }
{
    if is_name(&term) {
        return Ok(term);
    }
    let sorts = progress.sorts.as_slice();
    let found = term_sort::<IntTheory>(alloc, &[], &[], sorts, &term)?;
    match found {
        Some(sort) => {
            let variable = progress.equate(alloc, sort, term)?;
            Ok(variable)
        }
        None => Ok(term),
    }
}

/// The number, where 32 bits count it.
fn counted(count: usize) -> Result<u32, Want>
    ensures { IfOk result (λ number. number ≡ count) }
{
    match u32::try_from(count) {
        Ok(number) => Ok(number),
        Err(_) => Err(AllocError),
    }
}

/// So many variables, from the first on.
pub(crate) fn first_variables(alloc: Global, count: usize) -> Result<Vec<Term<IntTheory>>, Want>
    ensures { IfOk result (λ names. exprs_of Whole names.items ≡ spec.first_variables count) }
{
    let many = counted(count)?;
    let mut names = Vec::with_capacity(alloc, count)?;
    for number in 0..many {
        names.push(Term::Var(number))?;
    }
    Ok(names)
}
