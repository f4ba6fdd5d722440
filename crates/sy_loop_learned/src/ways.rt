// How a grammar says `and` and `or`.
use std::alloc::Global;
use sy_terms::{Op, Term, Terms, Theory, Value, Want};

/// How the grammar joins two terms.
#[derive(Clone, Copy, PartialEq, Eq)]
pub(crate) enum Word {
    /// `(and a b)`, `(or a b)`.
    Plain,
    /// `(not (or (not a) (not b)))`, `(not (and (not a) (not b)))`.
    Negated,
    /// `(not (=> a (not b)))`, `(=> (not a) b)`.
    Implied,
    /// `(ite a b false)`, `(ite a true b)`.
    Chosen,
}

/// All ways in which two terms may be joined, in the order in which they are tried.
pub(crate) const WORDS: [Word; 4] = [Word::Plain, Word::Negated, Word::Implied, Word::Chosen];

/// How conjunctions and disjunctions are written, and whether they nest to the left.
#[derive(Clone, Copy)]
pub(crate) struct Way {
    pub(crate) conjunction: Word,
    pub(crate) disjunction: Word,
    pub(crate) is_left: bool,
}

/// The conjunction of the terms, or their disjunction.
pub(crate) fn joined<T: Theory>(
    alloc: Global,
    way: Way,
    is_and: bool,
    terms: Vec<Term<T>>,
) -> Result<Term<T>, Want> {
    let word = if is_and {
        way.conjunction
    } else {
        way.disjunction
    };
    if way.is_left {
        joined_left(alloc, word, is_and, terms)
    } else {
        joined_right(alloc, word, is_and, terms)
    }
}

/// The same, where each but the last is joined with all behind it.
fn joined_right<T: Theory>(
    alloc: Global,
    word: Word,
    is_and: bool,
    terms: Vec<Term<T>>,
) -> Result<Term<T>, Want> {
    let mut left = terms;
    let Some(mut whole) = left.pop() else {
        return Ok(Term::Const(Value::Truth(is_and)));
    };
    for _ in 0..left.len() {
        let Some(term) = left.pop() else {
            break;
        };
        whole = pair(alloc, word, is_and, term, whole)?;
    }
    Ok(whole)
}

/// The same, where all in front of each but the first are joined with it.
fn joined_left<T: Theory>(
    alloc: Global,
    word: Word,
    is_and: bool,
    terms: Vec<Term<T>>,
) -> Result<Term<T>, Want> {
    let mut whole = None;
    for term in terms {
        whole = match whole {
            None => Some(term),
            Some(others) => Some(pair(alloc, word, is_and, others, term)?),
        };
    }
    match whole {
        Some(term) => Ok(term),
        None => Ok(Term::Const(Value::Truth(is_and))),
    }
}

/// The conjunction of two terms, or their disjunction.
pub(crate) fn pair<T: Theory>(
    alloc: Global,
    word: Word,
    is_and: bool,
    first: Term<T>,
    second: Term<T>,
) -> Result<Term<T>, Want> {
    let operator = if is_and { Op::And } else { Op::Or };
    let other = if is_and { Op::Or } else { Op::And };
    match word {
        Word::Plain => applied(alloc, operator, first, second),
        Word::Negated => {
            let first = negated(alloc, first)?;
            let second = negated(alloc, second)?;
            let inner = applied(alloc, other, first, second)?;
            negated(alloc, inner)
        }
        Word::Implied if is_and => {
            let second = negated(alloc, second)?;
            let inner = applied(alloc, Op::Implies, first, second)?;
            negated(alloc, inner)
        }
        Word::Implied => {
            let first = negated(alloc, first)?;
            applied(alloc, Op::Implies, first, second)
        }
        Word::Chosen => chosen(alloc, is_and, first, second),
    }
}

/// The operator at two terms.
fn applied<T: Theory>(
    alloc: Global,
    operator: Op,
    first: Term<T>,
    second: Term<T>,
) -> Result<Term<T>, Want> {
    let mut terms = Terms::with_capacity(alloc, 2)?;
    terms.push(first)?;
    terms.push(second)?;
    Ok(Term::App(operator, terms))
}

/// The conjunction or the disjunction as a choice.
fn chosen<T: Theory>(
    alloc: Global,
    is_and: bool,
    first: Term<T>,
    second: Term<T>,
) -> Result<Term<T>, Want> {
    let constant = Term::Const(Value::Truth(!is_and));
    let mut terms = Terms::with_capacity(alloc, 3)?;
    terms.push(first)?;
    if is_and {
        terms.push(second)?;
        terms.push(constant)?;
    } else {
        terms.push(constant)?;
        terms.push(second)?;
    }
    Ok(Term::App(Op::Ite, terms))
}

/// The term's negation; of a negation what it negates.
fn negated<T: Theory>(alloc: Global, term: Term<T>) -> Result<Term<T>, Want> {
    if let Term::App(Op::Not, parts) = &term {
        if let Some(inner) = parts.get(0) {
            return inner.copy(alloc);
        }
    }
    let mut terms = Terms::with_capacity(alloc, 1)?;
    terms.push(term)?;
    Ok(Term::App(Op::Not, terms))
}
