// The walk through a term: arguments before their node, from left to right.
ghost use Rattle.std.specs.Prelude.{◌≡◌, IfOk, OnOk};
ghost use Rattle.sy_terms.specs.Values.{Whole};
ghost use Rattle.sy_terms.specs.Denoted.{expr_of, exprs_of};
ghost use Rattle.sy_lower_laws.specs.Lowering.{lowered, all_lowered, bound_lowered};
ghost use Rattle.sy_lower.specs.Stored.{progress_in, Gives, GivesAll};

use crate::applied::applied;
use crate::names::{name_at, named};
use crate::progress::Progress;
use std::alloc::Global;
use sy_meaning_integers::IntTheory;
use sy_terms::{Term, Terms, Want};

/// The lowered term, where the names in force stand for these terms. During the call those of lets stand after them.
#[cycle(walk)]
pub(crate) fn walk(
    alloc: Global,
    names: &mut Vec<Term<IntTheory>>,
    progress: &mut Progress,
    term: &Term<IntTheory>,
) -> Result<Term<IntTheory>, Want>
    ensures names { OnOk result (names.new.items ≡ names.old.items) }
    ensures lowered { IfOk result (λ found. Gives (expr_of Whole found) (progress_in progress.new)
        (lowered (exprs_of Whole names.old.items) (progress_in progress.old) (expr_of Whole term.now))) }
{
    match term {
        Term::Const(value) => Ok(Term::Const(*value)),
        Term::Var(position) => {
            let found = name_at(alloc, names.as_slice(), *position)?;
            Ok(found)
        }
        Term::App(operator, arguments) => {
            let arguments = walk_all(alloc, names, progress, arguments.as_slice())?;
            let found = applied(alloc, progress, operator, arguments)?;
            Ok(found)
        }
        Term::Call(_, _) => {
            let found = term.copy(alloc)?;
            Ok(found)
        }
        Term::Let(bound, inner) => {
            let outer = names.len();
            let mut inside = walk_bound(alloc, names, progress, bound.as_slice())?;
            names.append(&mut inside)?;
            let found = walk(alloc, names, progress, inner)?;
            names.truncate(outer);
            Ok(found)
        }
    }
}

/// Each of the terms lowered.
#[cycle(walk)]
fn walk_all(
    alloc: Global,
    names: &mut Vec<Term<IntTheory>>,
    progress: &mut Progress,
    terms: &[Term<IntTheory>],
) -> Result<Terms<IntTheory>, Want>
    ensures names { OnOk result (names.new.items ≡ names.old.items) }
    ensures lowered { IfOk result (λ found. GivesAll (exprs_of Whole found.items.items) (progress_in progress.new)
        (all_lowered (exprs_of Whole names.old.items) (progress_in progress.old) (exprs_of Whole terms.now))) }
{
    let mut all = Terms::with_capacity(alloc, terms.len())?;
    for term in terms {
        let found = walk(alloc, names, progress, term)?;
        all.push(found)?;
    }
    Ok(all)
}

/// What the names of bound terms stand for.
#[cycle(walk)]
fn walk_bound(
    alloc: Global,
    names: &mut Vec<Term<IntTheory>>,
    progress: &mut Progress,
    bound: &[Term<IntTheory>],
) -> Result<Vec<Term<IntTheory>>, Want>
    ensures names { OnOk result (names.new.items ≡ names.old.items) }
    ensures lowered { IfOk result (λ found. GivesAll (exprs_of Whole found.items) (progress_in progress.new)
        (bound_lowered (exprs_of Whole names.old.items) (progress_in progress.old) (exprs_of Whole bound.now))) }
{
    let mut all = Vec::with_capacity(alloc, bound.len())?;
    for term in bound {
        let found = walk(alloc, names, progress, term)?;
        let name = named(alloc, progress, found)?;
        all.push(name)?;
    }
    Ok(all)
}
