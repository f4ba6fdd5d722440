// Terms of operators.
ghost use Rattle.std.specs.Prelude.{◌≡◌, IfOk};
ghost use Rattle.sy_terms.specs.Denoted.{expr_of};
ghost use Rattle.sy_terms.specs.Expr.{Apply, more, none};

use std::alloc::Global;
use sy_terms::{Op, Term, Terms, Theory, Want};

/// The operator at copies of two terms.
pub(crate) fn binary<T: Theory>(
    alloc: Global,
    operator: Op,
    first: &Term<T>,
    second: &Term<T>,
) -> Result<Term<T>, Want>
    ensures { IfOk result (λ term. expr_of T.denotes term ≡
        Apply operator (more (expr_of T.denotes first.now) (more (expr_of T.denotes second.now) none))) }
{
    let mut arguments = Terms::with_capacity(alloc, 2)?;
    let left = first.copy(alloc)?;
    arguments.push(left)?;
    let right = second.copy(alloc)?;
    arguments.push(right)?;
    Ok(Term::App(operator, arguments))
}
