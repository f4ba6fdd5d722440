// Terms in which lets of small terms are written out.
ghost use Rattle.std.specs.Prelude.{◌≡◌, ◌+◌, ◌<◌, ◌^◌, true, length, take, IsTrue, IfOk, OnOk};
ghost use Rattle.sy_terms.specs.Denoted.{expr_of, exprs_of};
ghost use Rattle.sy_rewrite_orders.specs.Replaced as spec;
ghost use Rattle.sy_terms_operators.specs.Plain as plain;
ghost use Rattle.sy_rewrite_orders.specs.Replaced.{IsReplaced, AreReplaced, AreNamed};

use crate::names::{counted, may_stand, named, variables};
use std::alloc::Global;
use sy_query_base::copied_terms;
use sy_terms::{Term, Terms, Theory, Want};

/// The term with each name replaced by what it stands for, where `count` values are in force in what is written. A
/// `let` is written out where each of its terms has no `let` left in it and at most `most` nodes; another one is kept.
/// During the call the names of lets stand after the given ones.
#[cycle(written)]
pub(crate) fn written<T: Theory>(
    alloc: Global,
    most: u64,
    count: u32,
    names: &mut Vec<Term<T>>,
    term: &Term<T>,
) -> Result<Term<T>, Want>
    requires { plain.are_plain count (exprs_of T.denotes names.old.items) ≡ true }
    ensures kept { OnOk result (names.new.items ≡ names.old.items) }
    ensures replaced { IfOk result (λ found.
        IsReplaced count (exprs_of T.denotes names.old.items) (expr_of T.denotes found) (expr_of T.denotes term.now)) }
{
    match term {
        Term::Const(value) => Ok(Term::Const(*value)),
        Term::Var(position) => {
            let found = named(alloc, names.as_slice(), *position)?;
            Ok(found)
        }
        Term::App(operator, arguments) => {
            let arguments = all_written(alloc, most, count, names, arguments.as_slice())?;
            Ok(Term::App(*operator, arguments))
        }
        Term::Call(function, arguments) => {
            let arguments = all_written(alloc, most, count, names, arguments.as_slice())?;
            Ok(Term::Call(*function, arguments))
        }
        Term::Let(bound, inner) => {
            let bound = all_written(alloc, most, count, names, bound.as_slice())?;
            let outer = names.len();
            let stand = may_stand(most, count, bound.as_slice());
            let many = name_all(alloc, stand, count, names, bound.as_slice())?;
            let inner = written(alloc, most, count + many, names, inner)?;
            names.truncate(outer);
            let found = let_of(alloc, stand, bound, inner)?;
            Ok(found)
        }
    }
}

/// The same of each of the terms.
#[cycle(written)]
fn all_written<T: Theory>(
    alloc: Global,
    most: u64,
    count: u32,
    names: &mut Vec<Term<T>>,
    terms: &[Term<T>],
) -> Result<Terms<T>, Want>
    requires { plain.are_plain count (exprs_of T.denotes names.old.items) ≡ true }
    ensures kept { OnOk result (names.new.items ≡ names.old.items) }
    ensures replaced { IfOk result (λ found. AreReplaced count
        (exprs_of T.denotes names.old.items) (exprs_of T.denotes found.items.items) (exprs_of T.denotes terms.now)) }
{
    let mut all = Terms::with_capacity(alloc, terms.len())?;
    for term in terms {
        let found = written(alloc, most, count, names, term)?;
        all.push(found)?;
    }
    Ok(all)
}

/// Adds what the names of a `let` stand for: copies of its terms, where these may stand in the names' places, and else
/// the variables after the first `count`. How many variables these are.
fn name_all<T: Theory>(
    alloc: Global,
    stand: bool,
    count: u32,
    names: &mut Vec<Term<T>>,
    bound: &[Term<T>],
) -> Result<u32, Want>
    requires names { plain.are_plain count (exprs_of T.denotes names.old.items) ≡ true }
    requires bound { IsTrue stand → plain.are_plain count (exprs_of T.denotes bound.now) ≡ true }
    ensures counted { IfOk result (λ many. count + many < 2 ^ 32) }
    ensures kept { OnOk result (take (length names.old.items) names.new.items ≡ names.old.items) }
    ensures plain { IfOk result (λ many. plain.are_plain (count + many) (exprs_of T.denotes names.new.items) ≡ true) }
    ensures named { IfOk result (λ many. AreNamed stand count many
        (exprs_of T.denotes names.old.items) (exprs_of T.denotes names.new.items) (exprs_of T.denotes bound.now)) }
{
    if stand {
        let mut copies = copied_terms(alloc, bound)?;
        names.append(&mut copies)?;
        return Ok(0);
    }
    let many = counted(count, bound.len())?;
    let mut next = variables(alloc, count, many)?;
    names.append(&mut next)?;
    Ok(many)
}

/// A `let` of these terms; what is under it, where they stand in the places of its names.
fn let_of<T: Theory>(
    alloc: Global,
    stand: bool,
    bound: Terms<T>,
    inner: Term<T>,
) -> Result<Term<T>, Want>
    ensures { IfOk result (λ found. expr_of T.denotes found ≡
        spec.let_of stand (exprs_of T.denotes bound.items.items) (expr_of T.denotes inner)) }
{
    if stand {
        return Ok(inner);
    }
    let inner = Box::new(alloc, inner)?;
    Ok(Term::Let(bound, inner))
}
