// Terms of constants.
ghost use Rattle.std.specs.Prelude.{◌≡◌, IfOk, true};
ghost use Rattle.std.specs.Option.{option_map};
ghost use Rattle.sy_terms.specs.Denoted.{val_of, expr_of};
ghost use Rattle.sy_grammar_base.specs.Trees as trees;
ghost use Rattle.sy_bank.specs.Leaves as spec;

use std::alloc::Global;
use sy_terms::{Op, Sort, Term, Terms, Theory, Value, Want};

/// The term that writes the value: a negative integer is the negation of a positive one.
pub fn literal<T: Theory>(alloc: Global, value: Value<T::Num>) -> Result<Term<T>, Want>
    requires { trees.is_written (val_of T.denotes value) ≡ true }
    ensures { IfOk result (λ term. expr_of T.denotes term ≡ trees.literal (val_of T.denotes value)) }
{
    match opposite::<T>(value) {
        Some(positive) => {
            let mut arguments = Terms::new(alloc);
            arguments.push(Term::Const(Value::Num(positive)))?;
            Ok(Term::App(Op::Neg, arguments))
        }
        None => Ok(Term::Const(value)),
    }
}

/// The positive integer whose negation the value is; `None` exactly where the value isn't a negative integer.
fn opposite<T: Theory>(value: Value<T::Num>) -> Option<T::Num>
    requires { trees.is_written (val_of T.denotes value) ≡ true }
    ensures { option_map T.denotes result ≡ spec.positive_of (val_of T.denotes value) }
{
    match value {
        Value::Truth(_) => None,
        Value::Num(number) => {
            let whole = T::number(number);
            if whole < 0 {
                T::of_number(Sort::Int, -whole)
            } else {
                None
            }
        }
    }
}
