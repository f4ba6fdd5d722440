// Constant divisors.
ghost use Rattle.std.specs.Prelude.{◌≡◌};
ghost use Rattle.sy_terms.specs.Values.{Whole};
ghost use Rattle.sy_terms.specs.Denoted.{val_of, expr_of, exprs_of};
ghost use Rattle.sy_terms.specs.Expr.{more, none};
ghost use Rattle.sy_lower_laws.specs.Lowering as spec;
ghost use Rattle.sy_lower.specs.Divisors.{negated, value_negated, value_nonzero};

use sy_meaning_integers::IntTheory;
use sy_terms::{Op, Term, Value};

/// The number, where it isn't 0.
fn nonzero(number: i128) -> Option<i128>
    ensures { result ≡ spec.nonzero number }
{
    if number == 0 { None } else { Some(number) }
}

/// The negation of the number, where it fits 128 bits and isn't 0.
fn negate(number: i128) -> Option<i128>
    ensures { result ≡ negated number }
{
    match number.checked_neg() {
        Some(negation) => nonzero(negation),
        None => None,
    }
}

/// The negation of the number that the value is, where it fits 128 bits and isn't 0.
fn negated_value(value: &Value<i128>) -> Option<i128>
    ensures { result ≡ value_negated (val_of Whole value.now) }
{
    match value {
        Value::Truth(_) => None,
        Value::Num(number) => negate(*number),
    }
}

/// The number that the value is, where it isn't 0.
fn nonzero_value(value: &Value<i128>) -> Option<i128>
    ensures { result ≡ value_nonzero (val_of Whole value.now) }
{
    match value {
        Value::Truth(_) => None,
        Value::Num(number) => nonzero(*number),
    }
}

/// The negation of the number that the term is, where it fits 128 bits and isn't 0.
fn negated_constant(term: &Term<IntTheory>) -> Option<i128>
    ensures { result ≡ spec.negated_divisor (more (expr_of Whole term.now) none) }
{
    match term {
        Term::Const(value) => negated_value(value),
        Term::Var(_) => None,
        Term::App(_, _) => None,
        Term::Call(_, _) => None,
        Term::Let(_, _) => None,
    }
}

/// The negation of the number that the only argument is, where it fits 128 bits and isn't 0.
fn negated_divisor(arguments: &[Term<IntTheory>]) -> Option<i128>
    ensures { result ≡ spec.negated_divisor (exprs_of Whole arguments.now) }
{
    if arguments.len() != 1 {
        return None;
    }
    negated_constant(&arguments[0])
}

/// Whether the operator is the negation of integers.
#[tactic(auto, unfolding(sy_lower_laws::specs::Lowering::is_negation))]
fn is_negation(operator: &Op) -> bool
    ensures { result ≡ spec.is_negation operator.now }
{
    matches!(operator, Op::Neg)
}

/// The constant other than 0 that the term is as it is written: a number, or the negation of one that fits 128 bits.
pub(crate) fn divisor(term: &Term<IntTheory>) -> Option<i128>
    ensures { result ≡ spec.divisor (expr_of Whole term.now) }
{
    match term {
        Term::Const(value) => nonzero_value(value),
        Term::Var(_) => None,
        Term::App(operator, arguments) => {
            if is_negation(operator) {
                negated_divisor(arguments.as_slice())
            } else {
                None
            }
        }
        Term::Call(_, _) => None,
        Term::Let(_, _) => None,
    }
}
