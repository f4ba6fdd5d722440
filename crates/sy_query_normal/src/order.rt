// An order of terms, in which equal terms are neighbours. Nothing that is proved rests on it.
use std::cmp::Ordering;
use sy_meaning_words::{BvTheory, Word};
use sy_terms::{Op, Term, Value};
use sy_terms_operators::spell;

/// Whether the first term stands before the second one: variables before applications, these by their operators and
/// then by their arguments, and constants last, as people write sums and comparisons. A complement stands right behind
/// the term whose it is, so that gates of the two see each other.
pub(crate) fn is_before(first: &Term<BvTheory>, second: &Term<BvTheory>) -> bool {
    match compare(turned_back(first), turned_back(second)) {
        Ordering::Less => true,
        Ordering::Equal => !is_complement(first) && is_complement(second),
        Ordering::Greater => false,
    }
}

/// The same, but for terms that have complements among the given ones: these stand before the others, so that an
/// operator which goes from the left meets a term and its complement before anything else.
pub(crate) fn is_before_among(
    terms: &[Term<BvTheory>],
    first: &Term<BvTheory>,
    second: &Term<BvTheory>,
) -> bool {
    match (has_complement(terms, first), has_complement(terms, second)) {
        (true, false) => true,
        (false, true) => false,
        _ => is_before(first, second),
    }
}

/// Whether one of the terms is the complement of the given one, or has it as its complement.
fn has_complement(terms: &[Term<BvTheory>], term: &Term<BvTheory>) -> bool {
    for other in terms {
        if is_complement_of(term, other) || is_complement_of(other, term) {
            return true;
        }
    }
    false
}

/// Whether the term is the complement of the other one.
fn is_complement_of(term: &Term<BvTheory>, other: &Term<BvTheory>) -> bool {
    is_complement(term) && turned_back(term).equals(other)
}

/// Whether the term is the complement of another one.
fn is_complement(term: &Term<BvTheory>) -> bool {
    matches!(term, Term::App(Op::Not | Op::BvNot, _))
}

/// The term whose complement it is, or else the term itself.
fn turned_back(term: &Term<BvTheory>) -> &Term<BvTheory> {
    match term {
        Term::App(Op::Not | Op::BvNot, arguments) => match arguments.get(0) {
            Some(inner) => inner,
            None => term,
        },
        _ => term,
    }
}

#[cycle(order)]
fn compare(first: &Term<BvTheory>, second: &Term<BvTheory>) -> Ordering {
    match (first, second) {
        (Term::Const(a), Term::Const(b)) => number(a).cmp(&number(b)),
        (Term::Var(a), Term::Var(b)) => a.cmp(b),
        (Term::App(f, a), Term::App(g, b)) => match compare_operators(f, g) {
            Ordering::Equal => compare_all(a.as_slice(), b.as_slice()),
            unequal => unequal,
        },
        _ => rank(first).cmp(&rank(second)),
    }
}

#[cycle(order)]
fn compare_all(first: &[Term<BvTheory>], second: &[Term<BvTheory>]) -> Ordering {
    for (a, b) in first.iter().zip(second) {
        match compare(a, b) {
            Ordering::Equal => {}
            unequal => return unequal,
        }
    }
    first.len().cmp(&second.len())
}

/// The place of a term's form among the forms.
fn rank(term: &Term<BvTheory>) -> u8 {
    match term {
        Term::Var(_) => 0,
        Term::App(_, _) => 1,
        Term::Call(_, _) => 2,
        Term::Let(_, _) => 3,
        Term::Const(_) => 4,
    }
}

fn number(value: &Value<Word>) -> u64 {
    match value {
        Value::Truth(truth) => u64::from(*truth),
        Value::Num(word) => word.bits(),
    }
}

/// Operators by how they are spelled, and then by their indices.
fn compare_operators(first: &Op, second: &Op) -> Ordering {
    match spell(first).cmp(spell(second)) {
        Ordering::Equal => indices(first).cmp(&indices(second)),
        unequal => unequal,
    }
}

/// The indices of an operator, as one number.
fn indices(operator: &Op) -> u16 {
    match *operator {
        Op::Extract(high, low) => u16::from(high) * 256 + u16::from(low),
        Op::Repeat(count) => u16::from(count),
        Op::ZeroExtend(count) => u16::from(count),
        Op::SignExtend(count) => u16::from(count),
        Op::RotateLeft(count) => u16::from(count),
        Op::RotateRight(count) => u16::from(count),
        _ => 0,
    }
}
