// The constants and the arguments that terms are.
ghost use Rattle.std.specs.Prelude.{◌≡◌, ℕ, ◌+◌, ℤ, pos, MatchOption, true};
ghost use Rattle.sy_terms.specs.Values.{Val, Whole};
ghost use Rattle.sy_terms.specs.Denoted.{val_of, expr_of, exprs_of};
ghost use Rattle.sy_terms.specs.Expr as expr;
ghost use Rattle.sy_terms.specs.declared.op.Op.TheVariants as ops;
ghost use Rattle.sy_terms.specs.declared.sort.Sort.TheVariants as sorts;
ghost use Rattle.sy_grammar.specs.Rows.{IsConstant, IsArgumentOf, IsOpposite};

use sy_terms::{Op, Sort, Term, Terms, Theory, Value, same_sort};

/// The constant of the sort that the term writes; `None` exactly where it writes none.
pub fn constant_of<T: Theory>(term: &Term<T>, sort: Sort) -> Option<Value<T::Num>>
    ensures { MatchOption result ((value : Val) → IsConstant sort (expr_of T.denotes term.now) value →
        ⊥) (λ value. IsConstant sort (expr_of T.denotes term.now) (val_of T.denotes value)) }
{
    match term {
        Term::Const(value) => plain::<T>(value, sort),
        Term::Var(_) => None,
        Term::App(operator, arguments) => {
            if operator.equals(&Op::Neg) {
                negated(arguments, sort)
            } else {
                None
            }
        }
        Term::Call(_, _) => None,
        Term::Let(_, _) => None,
    }
}

/// The value itself, where it is of the sort and no integer below 0.
fn plain<T: Theory>(value: &Value<T::Num>, sort: Sort) -> Option<Value<T::Num>>
    ensures { MatchOption result ((v : Val) → IsConstant sort (expr.Constant (val_of T.denotes value.now)) v →
        ⊥) (λ found. IsConstant sort (expr.Constant (val_of T.denotes value.now)) (val_of T.denotes found)) }
{
    if !same_sort(&sort, &T::value_sort(value)) {
        return None;
    }
    match value {
        Value::Truth(truth) => Some(Value::Truth(*truth)),
        Value::Num(number) => {
            let whole = T::number(*number);
            if whole < 0 {
                return None;
            }
            match T::of_number(sort, whole) {
                Some(_) => Some(Value::Num(*number)),
                None => None,
            }
        }
    }
}

/// The constant below 0 that a negation of these arguments writes.
fn negated<T: Theory>(arguments: &Terms<T>, sort: Sort) -> Option<Value<T::Num>>
    ensures { MatchOption result ((v : Val) →
        IsConstant sort (expr.Apply ops.Neg (exprs_of T.denotes arguments.now.items.items)) v → ⊥) (λ found.
        IsConstant sort (expr.Apply ops.Neg (exprs_of T.denotes arguments.now.items.items)) (val_of T.denotes found)) }
{
    if !same_sort(&sort, &Sort::Int) {
        return None;
    }
    if arguments.len() != 1 {
        return None;
    }
    let Some(term) = arguments.get(0) else {
        return None;
    };
    let Some(whole) = whole_of(term) else {
        return None;
    };
    match opposite::<T>(whole) {
        Some(number) => Some(Value::Num(number)),
        None => None,
    }
}

/// The number that stands for minus this integer; `None` exactly where it isn't above 0, in a theory of integers.
fn opposite<T: Theory>(whole: i128) -> Option<T::Num>
    ensures { MatchOption result ((less : ℕ) → whole ≡ pos (less + 1) →
        T.numeric sorts.Int ≡ true → ⊥) (λ number. IsOpposite whole (T.denotes number)) }
{
    if whole < 1 {
        return None;
    }
    T::of_number(Sort::Int, -whole)
}

/// The integer that the term is; `None` exactly where it is none.
fn whole_of<T: Theory>(term: &Term<T>) -> Option<i128>
    ensures { MatchOption result ((whole : ℤ) → expr_of T.denotes term.now ≡ expr.Constant (Whole whole) →
        ⊥) (λ whole. (expr_of T.denotes term.now ≡ expr.Constant (Whole whole)) × (T.numeric sorts.Int ≡ true)) }
{
    match term {
        Term::Const(value) => match value {
            Value::Truth(_) => None,
            Value::Num(number) => {
                if same_sort(&T::value_sort(value), &Sort::Int) {
                    Some(T::number(*number))
                } else {
                    None
                }
            }
        },
        Term::Var(_) => None,
        Term::App(_, _) => None,
        Term::Call(_, _) => None,
        Term::Let(_, _) => None,
    }
}

/// The argument of the sort that the term is; `None` exactly where it is none.
pub fn variable_of<T: Theory>(term: &Term<T>, arguments: &[Sort], sort: Sort) -> Option<u32>
    ensures { MatchOption result ((position : ℕ) → IsArgumentOf sort arguments.now (expr_of T.denotes term.now)
        position → ⊥) (λ position. IsArgumentOf sort arguments.now (expr_of T.denotes term.now) position) }
{
    match term {
        Term::Var(position) => match arguments.get(*position as usize) {
            Some(found) => {
                if same_sort(&sort, found) {
                    Some(*position)
                } else {
                    None
                }
            }
            None => None,
        },
        Term::Const(_) => None,
        Term::App(_, _) => None,
        Term::Call(_, _) => None,
        Term::Let(_, _) => None,
    }
}
