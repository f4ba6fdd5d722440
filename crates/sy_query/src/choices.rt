// The choices of a term.
use sy_terms::{Op, Term, Terms, Theory};

/// How many choices a large one has, with itself and those among its parts.
const LARGE: u64 = 8;

/// Whether the term has a large choice, as it has where a body is a large conditional tree. Where variables are equal,
/// several leaves of a tree are right, so that simple models tell fewer trees apart.
pub(crate) fn has_large_choice<T: Theory>(term: &Term<T>) -> bool {
    size(term) >= LARGE
}

/// How many choices the largest choice of the term has. It doesn't matter how often one stands there: a query has a
/// body as often as its function is called.
#[cycle(size)]
fn size<T: Theory>(term: &Term<T>) -> u64 {
    match term {
        Term::Const(_) | Term::Var(_) => 0,
        Term::App(Op::Ite, parts) => together(parts).saturating_add(1),
        Term::App(_, arguments) | Term::Call(_, arguments) => largest(arguments),
        Term::Let(bound, inner) => largest(bound).max(size(inner)),
    }
}

/// How many choices the largest ones of the terms have together.
#[cycle(size)]
fn together<T: Theory>(terms: &Terms<T>) -> u64 {
    let mut total = 0u64;
    for term in terms.as_slice() {
        total = total.saturating_add(size(term));
    }
    total
}

/// How many choices the largest choice of the terms has.
#[cycle(size)]
fn largest<T: Theory>(terms: &Terms<T>) -> u64 {
    let mut most = 0u64;
    for term in terms.as_slice() {
        most = most.max(size(term));
    }
    most
}
