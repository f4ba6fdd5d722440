// Terms with their comparisons inside choices.
ghost use Rattle.std.specs.Prelude.{◌≡◌, IfOk};
ghost use Rattle.sy_terms.specs.Denoted.{expr_of, exprs_of};
ghost use Rattle.sy_rewrite_orders.specs.Alike.{IsAlike, AreAlike};

use crate::compared::applied;
use std::alloc::Global;
use sy_terms::{Term, Terms, Theory, Want};

/// A term that means the same, in which each comparison of a small term with a choice is a choice between comparisons.
#[cycle(apart)]
pub(crate) fn apart<T: Theory>(alloc: Global, term: &Term<T>) -> Result<Term<T>, Want>
    ensures { IfOk result (λ found. IsAlike (expr_of T.denotes found) (expr_of T.denotes term.now)) }
{
    match term {
        Term::Const(value) => Ok(Term::Const(*value)),
        Term::Var(position) => Ok(Term::Var(*position)),
        Term::App(operator, arguments) => {
            let arguments = all_apart(alloc, arguments.as_slice())?;
            let found = applied(alloc, *operator, arguments)?;
            Ok(found)
        }
        Term::Call(function, arguments) => {
            let arguments = all_apart(alloc, arguments.as_slice())?;
            Ok(Term::Call(*function, arguments))
        }
        Term::Let(bound, inner) => {
            let bound = all_apart(alloc, bound.as_slice())?;
            let inner = apart(alloc, inner)?;
            Ok(Term::Let(bound, Box::new(alloc, inner)?))
        }
    }
}

/// The same of each of the terms.
#[cycle(apart)]
fn all_apart<T: Theory>(alloc: Global, terms: &[Term<T>]) -> Result<Terms<T>, Want>
    ensures { IfOk result (λ found. AreAlike (exprs_of T.denotes found.items.items) (exprs_of T.denotes terms.now)) }
{
    let mut all = Terms::with_capacity(alloc, terms.len())?;
    for term in terms {
        let found = apart(alloc, term)?;
        all.push(found)?;
    }
    Ok(all)
}
