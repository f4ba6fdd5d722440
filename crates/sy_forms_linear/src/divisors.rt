// Divisions: whether each is by a constant other than 0.
ghost use Rattle.std.specs.Prelude.{◌≡◌, int_lt, pos};
ghost use Rattle.sy_terms.specs.Denoted.{val_of};
ghost use Rattle.sy_forms_items.specs.Meant.{phrase_of, phrases_of};
ghost use Rattle.sy_forms_linear.specs.Linear as spec;

use crate::factors::{flag_at, is_linear_product};
use sy_forms_items::{Phrase, is_neg};
use sy_terms::{Op, Theory, Value};

fn is_division(operator: &Op) -> bool
    ensures { result ≡ spec.is_division operator.now }
{
    match operator {
        Op::Div => true,
        Op::Mod => true,
        _ => false,
    }
}

/// Whether the number is above 0.
fn is_above_zero(number: i128) -> bool
    ensures { result ≡ int_lt (pos 0) number }
{
    0 < number
}

/// Whether the value is a number above 0.
fn is_positive<T: Theory>(value: &Value<T::Num>) -> bool
    ensures { result ≡ spec.is_positive (val_of T.denotes value.now) }
{
    match value {
        Value::Truth(_) => false,
        Value::Num(number) => is_above_zero(T::number(*number)),
    }
}

/// Whether the phrase is a literal above 0.
fn is_positive_literal<T: Theory>(phrase: &Phrase<T>) -> bool
    ensures { result ≡ spec.is_positive_literal (phrase_of T.denotes phrase.now) }
{
    match phrase {
        Phrase::Literal(value) => is_positive::<T>(value),
        Phrase::Position(_) => false,
        Phrase::Local(_) => false,
        Phrase::Nonterminal(_) => false,
        Phrase::Operation(_, _) => false,
        Phrase::Invocation(_, _) => false,
        Phrase::Let(_, _) => false,
    }
}

/// Whether this is one literal above 0.
fn is_one_positive<T: Theory>(arguments: &[Phrase<T>]) -> bool
    ensures { result ≡ spec.is_one_positive (phrases_of T.denotes arguments.now) }
{
    match arguments {
        [] => false,
        [argument] => is_positive_literal(argument),
        [_, _, ..] => false,
    }
}

/// Whether an argument is a numeral of at least 1, `(- n)` with such a numeral `n`, or a nonterminal that derives such
/// alone.
fn is_divisor<T: Theory>(divisors: &[bool], phrase: &Phrase<T>) -> bool
    ensures { result ≡ spec.is_divisor_phrase divisors.now (phrase_of T.denotes phrase.now) }
{
    match phrase {
        Phrase::Literal(value) => is_positive::<T>(value),
        Phrase::Position(_) => false,
        Phrase::Local(_) => false,
        Phrase::Nonterminal(number) => flag_at(divisors, *number),
        Phrase::Operation(operator, arguments) => {
            is_neg(operator) & is_one_positive(arguments.as_slice())
        }
        Phrase::Invocation(_, _) => false,
        Phrase::Let(_, _) => false,
    }
}

/// Whether each phrase is a divisor.
fn are_divisors<T: Theory>(divisors: &[bool], phrases: &[Phrase<T>]) -> bool
    ensures { result ≡ spec.are_divisors divisors.now (phrases_of T.denotes phrases.now) }
{
    for phrase in phrases {
        if !is_divisor(divisors, phrase) {
            return false;
        }
    }
    true
}

/// Whether each argument after the first is a divisor.
fn are_divisors_after<T: Theory>(divisors: &[bool], arguments: &[Phrase<T>]) -> bool
    ensures { result ≡ spec.are_divisors_after divisors.now (phrases_of T.denotes arguments.now) }
{
    match arguments.split_first() {
        Some((_, rest)) => are_divisors(divisors, rest),
        None => true,
    }
}

/// Whether what the operator divides by are constants other than 0.
fn divides_by_constants<T: Theory>(
    divisors: &[bool],
    operator: &Op,
    arguments: &[Phrase<T>],
) -> bool
    ensures { result ≡ spec.divides_by_constants divisors.now operator.now (phrases_of T.denotes arguments.now) }
{
    !is_division(operator) || are_divisors_after(divisors, arguments)
}

/// Whether the operator at these arguments is linear: of the factors of a product at most one is no constant, and a
/// division is by constants other than 0. The flags tell which nonterminals are such constants.
pub fn is_linear<T: Theory>(
    constants: &[bool],
    divisors: &[bool],
    operator: &Op,
    arguments: &[Phrase<T>],
) -> bool
    ensures { result ≡ spec.is_linear constants.now divisors.now operator.now (phrases_of T.denotes arguments.now) }
{
    is_linear_product(constants, operator, arguments)
        && divides_by_constants(divisors, operator, arguments)
}
