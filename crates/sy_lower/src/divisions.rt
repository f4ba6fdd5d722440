// Whether a query has something to lower.
ghost use Rattle.std.specs.Prelude.{◌≡◌};
ghost use Rattle.sy_terms.specs.Values.{Whole};
ghost use Rattle.sy_terms.specs.Denoted.{expr_of, exprs_of};
ghost use Rattle.sy_query_base.specs.Asked.{query_of};
ghost use Rattle.sy_lower_laws.specs.Lowering as spec;
ghost use Rattle.sy_lower_laws.specs.Lowering.{is_lowered, step_of};

use sy_meaning_integers::IntTheory;
use sy_query_base::Query;
use sy_terms::{Op, Term};

/// Whether the operator is `div`, `mod` or `abs`.
#[tactic(auto, unfolding(sy_lower_laws::specs::Lowering::step_of))]
fn is_division(operator: &Op) -> bool
    ensures { result ≡ is_lowered (step_of operator.now) }
{
    matches!(operator, Op::Div | Op::Mod | Op::Abs)
}

/// Whether the term has such an operator.
#[cycle(divisions)]
fn has_division(term: &Term<IntTheory>) -> bool
    ensures { result ≡ spec.has_divisions (expr_of Whole term.now) }
{
    match term {
        Term::Const(_) => false,
        Term::Var(_) => false,
        Term::App(operator, arguments) => {
            is_division(operator) || have_division(arguments.as_slice())
        }
        Term::Call(_, arguments) => have_division(arguments.as_slice()),
        Term::Let(bound, inner) => have_division(bound.as_slice()) || has_division(inner),
    }
}

/// Whether one of the terms has one.
#[cycle(divisions)]
fn have_division(terms: &[Term<IntTheory>]) -> bool
    ensures { result ≡ spec.have_divisions (exprs_of Whole terms.now) }
{
    for term in terms {
        if has_division(term) {
            return true;
        }
    }
    false
}

/// Whether the query has `div`, `mod` or `abs`. Without them it is its own lowering.
pub fn has_divisions(query: &Query<IntTheory>) -> bool
    ensures { result ≡ spec.has_divisions (query_of Whole query.now).body }
{
    has_division(&query.body)
}
