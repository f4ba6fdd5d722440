// Terms of operators.
ghost use Rattle.std.specs.Prelude.{◌≡◌, IfOk};
ghost use Rattle.sy_terms.specs.Values.{Whole};
ghost use Rattle.sy_terms.specs.Denoted.{expr_of};
ghost use Rattle.sy_terms.specs.Expr.{Apply, more, none};
ghost use Rattle.sy_lower_laws.specs.Lowering.{whole_constant};

use std::alloc::Global;
use sy_meaning_integers::IntTheory;
use sy_terms::{Op, Term, Terms, Value, Want};

/// The number.
pub(crate) fn number(value: i128) -> Term<IntTheory>
    ensures { expr_of Whole result ≡ whole_constant value }
{
    Term::Const(Value::Num(value))
}

/// The operator at a term.
pub(crate) fn unary(
    alloc: Global,
    operator: Op,
    argument: Term<IntTheory>,
) -> Result<Term<IntTheory>, Want>
    ensures { IfOk result (λ term. expr_of Whole term ≡ Apply operator (more (expr_of Whole argument) none)) }
{
    let mut arguments = Terms::with_capacity(alloc, 1)?;
    arguments.push(argument)?;
    Ok(Term::App(operator, arguments))
}

/// The operator at two terms.
pub(crate) fn binary(
    alloc: Global,
    operator: Op,
    first: Term<IntTheory>,
    second: Term<IntTheory>,
) -> Result<Term<IntTheory>, Want>
    ensures { IfOk result (λ term. expr_of Whole term ≡ Apply operator
        (more (expr_of Whole first) (more (expr_of Whole second) none))) }
{
    let mut arguments = Terms::with_capacity(alloc, 2)?;
    arguments.push(first)?;
    arguments.push(second)?;
    Ok(Term::App(operator, arguments))
}

/// The operator at three terms.
pub(crate) fn ternary(
    alloc: Global,
    operator: Op,
    first: Term<IntTheory>,
    second: Term<IntTheory>,
    third: Term<IntTheory>,
) -> Result<Term<IntTheory>, Want>
    ensures { IfOk result (λ term. expr_of Whole term ≡ Apply operator
        (more (expr_of Whole first) (more (expr_of Whole second) (more (expr_of Whole third) none)))) }
{
    let mut arguments = Terms::with_capacity(alloc, 3)?;
    arguments.push(first)?;
    arguments.push(second)?;
    arguments.push(third)?;
    Ok(Term::App(operator, arguments))
}
