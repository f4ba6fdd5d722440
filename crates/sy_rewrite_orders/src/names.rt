// What names stand for.
ghost use Rattle.std.specs.Prelude.{◌≡◌, ◌+◌, ◌<◌, ◌^◌, List, true, IsTrue, IfOk};
ghost use Rattle.sy_terms.specs.Values.{Val};
ghost use Rattle.sy_terms.specs.Denoted.{expr_of, exprs_of};
ghost use Rattle.sy_terms.specs.Meaning.{Function, meaning, meanings, value_at_position};
ghost use Rattle.sy_terms_operators.specs.Plain as spec;
ghost use Rattle.sy_rewrite_orders.specs.Replaced.{AreNext};

use std::alloc::{AllocError, Global};
use sy_terms::{Term, Theory, Value, Want};

/// Whether the term is made of constants, operators and the first `count` variables alone, so that it means the same
/// where further values are in force.
#[cycle(plain)]
fn is_plain<T: Theory>(count: u32, term: &Term<T>) -> bool
    ensures { result ≡ spec.is_plain count (expr_of T.denotes term.now) }
{
    match term {
        Term::Const(_) => true,
        Term::Var(position) => *position < count,
        Term::App(_, arguments) => are_plain(count, arguments.as_slice()),
        Term::Call(_, _) => false,
        Term::Let(_, _) => false,
    }
}

/// Whether each of the terms is.
#[cycle(plain)]
fn are_plain<T: Theory>(count: u32, terms: &[Term<T>]) -> bool
    ensures { result ≡ spec.are_plain count (exprs_of T.denotes terms.now) }
{
    for term in terms {
        if !is_plain(count, term) {
            return false;
        }
    }
    true
}

/// Whether each of the terms has at most so many nodes.
fn are_small<T: Theory>(most: u64, terms: &[Term<T>]) -> bool {
    terms
        .iter()
        .all(|term| term.size(most.saturating_add(1)) <= most)
}

/// Whether each of the terms may stand in a name's place: it has at most so many nodes, and means the same there.
pub(crate) fn may_stand<T: Theory>(most: u64, count: u32, terms: &[Term<T>]) -> bool
    ensures { IsTrue result → spec.are_plain count (exprs_of T.denotes terms.now) ≡ true }
{
    are_small(most, terms) && are_plain(count, terms)
}

/// What the name at a position stands for; beyond the names a term that means what a position without a value does.
pub(crate) fn named<T: Theory>(
    alloc: Global,
    names: &[Term<T>],
    position: u32,
) -> Result<Term<T>, Want>
    ensures { IfOk result (λ found. (defined wanted : List Function) (values : List Val) →
        meaning defined wanted values (expr_of T.denotes found) ≡
        value_at_position (meanings defined wanted values (exprs_of T.denotes names.now)) position) }
{
    match names.get(position as usize) {
        Some(term) => {
            let found = term.copy(alloc)?;
            Ok(found)
        }
        None => Ok(Term::Const(Value::Truth(false))),
    }
}

/// So many variables, the first of which stands after `count` others.
pub(crate) fn variables<T: Theory>(
    alloc: Global,
    count: u32,
    many: u32,
) -> Result<Vec<Term<T>>, Want>
    requires { count + many < 2 ^ 32 }
    ensures next { IfOk result (λ terms. AreNext count many (exprs_of T.denotes terms.items)) }
    ensures plain { IfOk result (λ terms. spec.are_plain (count + many) (exprs_of T.denotes terms.items) ≡ true) }
{
    let mut terms = Vec::with_capacity(alloc, many as usize)?;
    for i in 0..many {
        terms.push(Term::Var(count + i))?;
    }
    Ok(terms)
}

/// The number, where so many variables can be counted after `count` others.
pub(crate) fn counted(count: u32, many: usize) -> Result<u32, Want>
    ensures { IfOk result (λ number. (number ≡ many) × (count + number < 2 ^ 32)) }
{
    let Ok(number) = u32::try_from(many) else {
        return Err(AllocError);
    };
    match count.checked_add(number) {
        Some(_) => Ok(number),
        None => Err(AllocError),
    }
}
