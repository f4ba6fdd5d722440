// Comparisons of terms with what rules are made of.
ghost use Rattle.std.specs.Prelude.{◌≡◌, ◌==◌, ◌↔◌, IsTrue, MatchOption};
ghost use Rattle.sy_terms.specs.Denoted.{val_of, expr_of, exprs_of};
ghost use Rattle.sy_terms.specs.Expr as expr;
ghost use Rattle.sy_terms.specs.Expr.{Exprs};
ghost use Rattle.sy_terms.specs.declared.term.Fun.TheVariants.{Defined};

use sy_terms::{Fun, Op, Term, Terms, Theory, Value, same_value};

/// Whether the term is this constant.
pub fn is_constant<T: Theory>(term: &Term<T>, value: &Value<T::Num>) -> bool
    ensures { IsTrue result ↔ expr_of T.denotes term.now ≡ expr.Constant (val_of T.denotes value.now) }
{
    match term {
        Term::Const(other) => same_value::<T>(other, value),
        Term::Var(_) => false,
        Term::App(_, _) => false,
        Term::Call(_, _) => false,
        Term::Let(_, _) => false,
    }
}

/// Whether the term is the variable at this position.
pub fn is_variable<T: Theory>(term: &Term<T>, position: u32) -> bool
    ensures { IsTrue result ↔ expr_of T.denotes term.now ≡ expr.Variable position }
{
    match term {
        Term::Var(other) => *other == position,
        Term::Const(_) => false,
        Term::App(_, _) => false,
        Term::Call(_, _) => false,
        Term::Let(_, _) => false,
    }
}

/// The arguments to which the term applies the operator; `None` exactly where it isn't such an application.
pub fn applied<'a, T: Theory>(term: &'a Term<T>, operator: &Op) -> Option<&'a Terms<T>>
    ensures { MatchOption result ((terms : Exprs) → expr_of T.denotes term.now ≡ expr.Apply operator.now terms →
        ⊥) (λ terms. expr_of T.denotes term.now ≡ expr.Apply operator.now (exprs_of T.denotes terms.now.items.items)) }
{
    match term {
        Term::App(other, terms) => {
            if other.equals(operator) {
                Some(terms)
            } else {
                None
            }
        }
        Term::Const(_) => None,
        Term::Var(_) => None,
        Term::Call(_, _) => None,
        Term::Let(_, _) => None,
    }
}

/// The arguments with which the term calls the definition; `None` exactly where it isn't such a call.
pub fn called<T: Theory>(term: &Term<T>, definition: u32) -> Option<&Terms<T>>
    ensures { MatchOption result ((terms : Exprs) →
        expr_of T.denotes term.now ≡ expr.Invoke (Defined definition) terms → ⊥) (λ terms.
        expr_of T.denotes term.now ≡ expr.Invoke (Defined definition) (exprs_of T.denotes terms.now.items.items)) }
{
    match term {
        Term::Call(function, terms) => match function {
            Fun::Defined(other) => {
                if *other == definition {
                    Some(terms)
                } else {
                    None
                }
            }
            Fun::Wanted(_) => None,
        },
        Term::Const(_) => None,
        Term::Var(_) => None,
        Term::App(_, _) => None,
        Term::Let(_, _) => None,
    }
}
