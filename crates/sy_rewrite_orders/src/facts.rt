// Facts of the order of vectors, for which a search of truth values alone works long.
ghost use Rattle.std.specs.Prelude.{◌≡◌, IfOk, OnOk};
ghost use Rattle.sy_terms.specs.Denoted.{expr_of, exprs_of};
ghost use Rattle.sy_terms.specs.Expr.{Apply, more, none};
ghost use Rattle.sy_terms.specs.declared.op.Op.TheVariants as ops;
ghost use Rattle.sy_rewrite_orders.specs.Alike.{IsFact, SayTheSame, SaysTheSame, related};

use crate::triples::Triple;
use std::alloc::Global;
use sy_terms::{Op, Term, Terms, Theory, Want};

/// The term and facts of the variables of each triple: it is true where the term is.
pub(crate) fn with_facts<T: Theory>(
    alloc: Global,
    term: Term<T>,
    triples: &[Triple],
) -> Result<Term<T>, Want>
    ensures { IfOk result (λ found. SaysTheSame (expr_of T.denotes found) (expr_of T.denotes term)) }
{
    let mut parts = Terms::new(alloc);
    parts.push(term)?;
    for triple in triples {
        add_facts(alloc, *triple, &mut parts)?;
    }
    Ok(Term::App(Op::And, parts))
}

/// Appends facts of the triple's variables.
fn add_facts<T: Theory>(alloc: Global, of: Triple, parts: &mut Terms<T>) -> Result<(), Want>
    ensures { OnOk result
        (SayTheSame (exprs_of T.denotes parts.new.items.items) (exprs_of T.denotes parts.old.items.items)) }
{
    let fact = transitive(alloc, of)?;
    parts.push(fact)?;
    let fact = antisymmetric(alloc, of)?;
    parts.push(fact)?;
    Ok(())
}

/// That the first is at most the third, where it is at most the second and this at most the third.
fn transitive<T: Theory>(alloc: Global, of: Triple) -> Result<Term<T>, Want>
    ensures { IfOk result (λ term. IsFact (expr_of T.denotes term)) }
{
    let mut parts = Terms::with_capacity(alloc, 2)?;
    let both = steps(alloc, Op::BvUle, of.first, of.second, of.third)?;
    parts.push(both)?;
    let outer = order(alloc, Op::BvUle, of.first, of.third)?;
    parts.push(outer)?;
    Ok(Term::App(Op::Implies, parts))
}

/// That the first and the second aren't less than each other.
fn antisymmetric<T: Theory>(alloc: Global, of: Triple) -> Result<Term<T>, Want>
    ensures { IfOk result (λ term. IsFact (expr_of T.denotes term)) }
{
    let mut parts = Terms::with_capacity(alloc, 1)?;
    let both = steps(alloc, Op::BvUlt, of.first, of.second, of.first)?;
    parts.push(both)?;
    Ok(Term::App(Op::Not, parts))
}

/// The comparison of the first variable with the second, and of the second with the third.
fn steps<T: Theory>(
    alloc: Global,
    operator: Op,
    first: u32,
    second: u32,
    third: u32,
) -> Result<Term<T>, Want>
    ensures { IfOk result (λ term. expr_of T.denotes term ≡
        Apply ops.And (more (related operator first second) (more (related operator second third) none))) }
{
    let mut both = Terms::with_capacity(alloc, 2)?;
    let lower = order(alloc, operator, first, second)?;
    both.push(lower)?;
    let upper = order(alloc, operator, second, third)?;
    both.push(upper)?;
    Ok(Term::App(Op::And, both))
}

/// The comparison of two variables.
fn order<T: Theory>(alloc: Global, operator: Op, first: u32, second: u32) -> Result<Term<T>, Want>
    ensures { IfOk result (λ term. expr_of T.denotes term ≡ related operator first second) }
{
    let mut sides = Terms::with_capacity(alloc, 2)?;
    sides.push(Term::Var(first))?;
    sides.push(Term::Var(second))?;
    Ok(Term::App(operator, sides))
}
