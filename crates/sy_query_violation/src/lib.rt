// The term that says that a problem is violated, of its assumptions and its constraints.
#![tactic(auto)]

ghost use Rattle.std.specs.Prelude.{◌≡◌, IfOk};
ghost use Rattle.sy_terms.specs.Denoted.{expr_of, exprs_of};
ghost use Rattle.sy_query_violation.specs.Violating.{violated_by, conjoined};

use std::alloc::Global;
use sy_terms::{Op, Term, Terms, Theory, Value, Want};

/// Every assumption, and not every constraint.
pub fn violation<T: Theory>(
    alloc: Global,
    assumptions: Terms<T>,
    constraints: Terms<T>,
) -> Result<Term<T>, Want>
    ensures { IfOk result (λ term. expr_of T.denotes term ≡
        violated_by (exprs_of T.denotes assumptions.items.items) (exprs_of T.denotes constraints.items.items)) }
{
    let mut negated = Terms::new(alloc);
    negated.push(conjunction(constraints))?;
    let mut parts = assumptions;
    parts.push(Term::App(Op::Not, negated))?;
    Ok(Term::App(Op::And, parts))
}

/// All of the terms; true where there is none.
fn conjunction<T: Theory>(terms: Terms<T>) -> Term<T>
    ensures { expr_of T.denotes result ≡ conjoined (exprs_of T.denotes terms.items.items) }
{
    if terms.len() == 0 {
        Term::Const(Value::Truth(true))
    } else {
        Term::App(Op::And, terms)
    }
}
