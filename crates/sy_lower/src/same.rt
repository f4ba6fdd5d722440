// Whether terms of the integers are the same.
ghost use Rattle.std.specs.Prelude.{◌≡◌, Bool, nat_eq};
ghost use Rattle.sy_terms.specs.Values.{Whole, same};
ghost use Rattle.sy_terms.specs.Denoted.{val_of, expr_of, exprs_of};
ghost use Rattle.sy_terms.specs.Expr.{Constant, Variable};
ghost use Rattle.sy_lower_laws.specs.Lowering.{same_code, operator_code, same_expr, same_exprs};

use crate::keys::code;
use sy_meaning_integers::IntTheory;
use sy_terms::{Op, Term, Value};

/// Whether the values are the same.
fn same_value(value: &Value<i128>, other: &Value<i128>) -> bool
    ensures { result ≡ same (val_of Whole value.now) (val_of Whole other.now) }
{
    match (value, other) {
        (Value::Truth(truth), Value::Truth(other)) => *truth == *other,
        (Value::Num(number), Value::Num(other)) => *number == *other,
        _ => false,
    }
}

/// Whether the term is this constant.
fn is_constant(value: &Value<i128>, term: &Term<IntTheory>) -> bool
    ensures { result ≡ same_expr (Constant (val_of Whole value.now)) (expr_of Whole term.now) }
{
    match term {
        Term::Const(other) => same_value(value, other),
        Term::Var(_) => false,
        Term::App(_, _) => false,
        Term::Call(_, _) => false,
        Term::Let(_, _) => false,
    }
}

/// Whether the term is the variable at this position.
fn is_variable(position: u32, term: &Term<IntTheory>) -> bool
    ensures { result ≡ same_expr (Variable position) (expr_of Whole term.now) }
{
    match term {
        Term::Const(_) => false,
        Term::Var(other) => position == *other,
        Term::App(_, _) => false,
        Term::Call(_, _) => false,
        Term::Let(_, _) => false,
    }
}

/// Whether both operators are the same one of Core or Ints.
fn same_operator(operator: &Op, other: &Op) -> bool
    ensures { result ≡ same_code (operator_code operator.now) (operator_code other.now) }
{
    match (code(operator), code(other)) {
        (Some(first), Some(second)) => first == second,
        _ => false,
    }
}

/// Whether both terms are the same, of operators of Core and Ints, without bindings and calls.
#[cycle(same)]
pub(crate) fn same_term(term: &Term<IntTheory>, other: &Term<IntTheory>) -> bool
    ensures { result ≡ same_expr (expr_of Whole term.now) (expr_of Whole other.now) }
{
    match term {
        Term::Const(value) => is_constant(value, other),
        Term::Var(position) => is_variable(*position, other),
        Term::App(operator, arguments) => match other {
            Term::Const(_) => false,
            Term::Var(_) => false,
            Term::App(another, others) => {
                same_operator(operator, another)
                    && same_terms(arguments.as_slice(), others.as_slice())
            }
            Term::Call(_, _) => false,
            Term::Let(_, _) => false,
        },
        Term::Call(_, _) => false,
        Term::Let(_, _) => false,
    }
}

/// Whether there are as many terms in both lists, and those at each place are the same.
#[cycle(same)]
fn same_terms(terms: &[Term<IntTheory>], others: &[Term<IntTheory>]) -> bool
    ensures { result ≡ same_exprs (exprs_of Whole terms.now) (exprs_of Whole others.now) }
{
    if terms.len() != others.len() {
        return false;
    }
    for (place, term) in terms.iter().enumerate() {
        if !same_term(term, &others[place]) {
            return false;
        }
    }
    true
}
