// Products: how many factors are no constants.
ghost use Rattle.std.specs.Prelude.{◌≡◌, ◌≤◌};
ghost use Rattle.sy_forms_items.specs.Meant.{phrase_of, phrases_of};
ghost use Rattle.sy_forms_linear.specs.Linear as spec;

use sy_forms_items::{Phrase, is_neg};
use sy_terms::{Op, Theory};

/// Whether this is one literal.
fn is_literal<T: Theory>(arguments: &[Phrase<T>]) -> bool
    ensures { result ≡ spec.is_one_literal (phrases_of T.denotes arguments.now) }
{
    match arguments {
        [] => false,
        [argument] => is_written(argument),
        [_, _, ..] => false,
    }
}

/// Whether the phrase is a literal.
fn is_written<T: Theory>(phrase: &Phrase<T>) -> bool
    ensures { result ≡ spec.is_written_phrase (phrase_of T.denotes phrase.now) }
{
    match phrase {
        Phrase::Literal(_) => true,
        Phrase::Position(_) => false,
        Phrase::Local(_) => false,
        Phrase::Nonterminal(_) => false,
        Phrase::Operation(_, _) => false,
        Phrase::Invocation(_, _) => false,
        Phrase::Let(_, _) => false,
    }
}

fn is_mul(operator: &Op) -> bool
    ensures { result ≡ spec.is_mul operator.now }
{
    match operator {
        Op::Mul => true,
        _ => false,
    }
}

/// Whether the nonterminal of this number is flagged.
pub(crate) fn flag_at(flags: &[bool], number: u32) -> bool
    ensures { result ≡ spec.flag_at flags.now number }
{
    match flags.get(number as usize) {
        Some(flag) => *flag,
        None => false,
    }
}

/// Whether a factor is a numeral, `(- n)` with a numeral `n`, or a nonterminal that derives such alone.
fn is_constant<T: Theory>(constants: &[bool], phrase: &Phrase<T>) -> bool
    ensures { result ≡ spec.is_constant_phrase constants.now (phrase_of T.denotes phrase.now) }
{
    match phrase {
        Phrase::Literal(_) => true,
        Phrase::Position(_) => false,
        Phrase::Local(_) => false,
        Phrase::Nonterminal(number) => flag_at(constants, *number),
        Phrase::Operation(operator, arguments) => {
            is_neg(operator) & is_literal(arguments.as_slice())
        }
        Phrase::Invocation(_, _) => false,
        Phrase::Let(_, _) => false,
    }
}

/// 0 at a constant, and 1 at another factor.
fn weight<T: Theory>(constants: &[bool], factor: &Phrase<T>) -> usize
    ensures value { result ≡ spec.factor_weight constants.now (phrase_of T.denotes factor.now) }
    ensures small { result ≤ 1 }
{
    if is_constant(constants, factor) { 0 } else { 1 }
}

/// How many factors are no constants.
fn varying<T: Theory>(constants: &[bool], factors: &[Phrase<T>]) -> usize
    ensures { result ≡ spec.varying_factors constants.now (phrases_of T.denotes factors.now) }
{
    let mut count = 0;
    for factor in factors {
        count += weight(constants, factor);
    }
    count
}

/// Whether at most one factor of a product varies.
pub(crate) fn is_linear_product<T: Theory>(
    constants: &[bool],
    operator: &Op,
    arguments: &[Phrase<T>],
) -> bool
    ensures { result ≡ spec.is_linear_product constants.now operator.now (phrases_of T.denotes arguments.now) }
{
    !is_mul(operator) || varying(constants, arguments) <= 1
}
