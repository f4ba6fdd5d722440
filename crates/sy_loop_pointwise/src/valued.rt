// The values of subterms that apply no function to be found.
ghost use Rattle.std.specs.Prelude.{List, ◌≡◌, ◌<◌, ◌≤◌, length, IfOk, []};
ghost use Rattle.sy_terms.specs.Values.{Val};
ghost use Rattle.sy_terms.specs.Denoted.{vals_of, expr_of, exprs_of, AreValid};
ghost use Rattle.sy_terms.specs.Definitions.{DefinitionsFit, scope_of, bodies};
ghost use Rattle.sy_terms.specs.Expr.{Expr, Variable};
ghost use Rattle.sy_terms.specs.Fitting.{Scope};
ghost use Rattle.sy_terms.specs.Meaning.{Function, functions};
ghost use Rattle.sy_loop_pointwise.specs.Denoted.{shape_of, shapes_of};
ghost use Rattle.sy_loop_pointwise.specs.Shapes.{AreBelow, AreSubterms, numbers_of, shaped, subterms, term_of, terms_of};
ghost use Rattle.sy_loop_pointwise.specs.Valued.{IsValued, AreValued, EachIsValued, AreConstants};

use crate::shape::Shape;
use std::alloc::Global;
use sy_meaning::{Eval, evaluate, term_sort};
use sy_terms::{Defs, Seq, Term, Terms, Theory, Value, Values, Want};

/// The values of so many subterms, in order; `None` for one that has no sort where no function is to be found, or isn't
/// computable.
pub(crate) fn first_valued<T: Theory>(
    alloc: Global,
    defs: &Defs<T>,
    shapes: &[Shape<T>],
    count: usize,
    values: &[Value<T::Num>],
) -> Result<Vec<Option<Value<T::Num>>>, Want>
    requires definitions { DefinitionsFit T.owned T.denotes defs.now }
    requires values { AreValid T.denotes values.now }
    requires subterms { AreSubterms (shapes_of T.denotes shapes.now) }
    requires count { count ≤ length shapes.now }
    ensures many { IfOk result (λ found. length found.items ≡ count) }
    ensures are { IfOk result (λ found. EachIsValued T.denotes (scope_of T.owned defs.now) (functions (bodies T.denotes
        defs.now)) (vals_of T.denotes values.now) (subterms (shapes_of T.denotes shapes.now)) found.items) }
{
    let mut found = Vec::with_capacity(alloc, count)?;
    for shape in &shapes[..count] {
        let value = shape_value(alloc, defs, found.as_slice(), values, shape)?;
        found.push(value)?;
    }
    Ok(found)
}

/// The value of a subterm, where those before it have these.
fn shape_value<T: Theory>(
    alloc: Global,
    defs: &Defs<T>,
    found: &[Option<Value<T::Num>>],
    values: &[Value<T::Num>],
    shape: &Shape<T>,
) -> Result<Option<Value<T::Num>>, Want>
    requires definitions { DefinitionsFit T.owned T.denotes defs.now }
    requires values { AreValid T.denotes values.now }
    ensures { IfOk result (λ value. (terms : List Expr) → EachIsValued T.denotes (scope_of T.owned defs.now)
        (functions (bodies T.denotes defs.now)) (vals_of T.denotes values.now) terms found.now →
        AreBelow (length found.now) (numbers_of (shape_of T.denotes shape.now)) →
        IsValued T.denotes (scope_of T.owned defs.now) (functions (bodies T.denotes defs.now))
        (vals_of T.denotes values.now) (shaped terms (shape_of T.denotes shape.now)) value) }
{
    match shape {
        Shape::Const(value) => {
            let value = closed_value(alloc, defs, Term::Const(*value))?;
            Ok(value)
        }
        Shape::Var(position) => Ok(variable_value::<T>(values, *position)),
        Shape::App(operator, numbers) => {
            let Some(arguments) = values_at::<T>(alloc, found, numbers.as_slice())? else {
                return Ok(None);
            };
            let arguments = constants::<T>(alloc, arguments.as_slice())?;
            let value = closed_value(alloc, defs, Term::App(*operator, arguments))?;
            Ok(value)
        }
        Shape::Call(function, numbers) => {
            let Some(arguments) = values_at::<T>(alloc, found, numbers.as_slice())? else {
                return Ok(None);
            };
            let arguments = constants::<T>(alloc, arguments.as_slice())?;
            let value = closed_value(alloc, defs, Term::Call(*function, arguments))?;
            Ok(value)
        }
    }
}

/// The value of the variable at the position.
fn variable_value<T: Theory>(values: &[Value<T::Num>], position: u32) -> Option<Value<T::Num>>
    requires { AreValid T.denotes values.now }
    ensures { (scope : Scope) (defined : List Function) →
        IsValued T.denotes scope defined (vals_of T.denotes values.now) (Variable position) result }
{
    let value = values.get(position as usize)?;
    Some(*value)
}

/// The value of a term without variables, of which only the value is left.
fn closed_value<T: Theory>(
    alloc: Global,
    defs: &Defs<T>,
    term: Term<T>,
) -> Result<Option<Value<T::Num>>, Want>
    requires definitions { DefinitionsFit T.owned T.denotes defs.now }
    ensures { IfOk result (IsValued T.denotes (scope_of T.owned defs.now)
        (functions (bodies T.denotes defs.now)) [] (expr_of T.denotes term)) }
{
    let value = plain_value(alloc, defs, &term);
    drop(term);
    value
}

/// The value of a term without variables.
fn plain_value<T: Theory>(
    alloc: Global,
    defs: &Defs<T>,
    term: &Term<T>,
) -> Result<Option<Value<T::Num>>, Want>
    requires definitions { DefinitionsFit T.owned T.denotes defs.now }
    ensures { IfOk result (IsValued T.denotes (scope_of T.owned defs.now)
        (functions (bodies T.denotes defs.now)) [] (expr_of T.denotes term.now)) }
{
    let nothing = Vec::new(alloc);
    if term_sort(alloc, defs.as_slice(), &[], &[], term)?.is_none() {
        return Ok(None);
    }
    match evaluate(alloc, defs, nothing.as_slice(), term) {
        Ok(value) => Ok(Some(value)),
        Err(Eval::Range) => Ok(None),
        Err(Eval::Want) => Err(Want {}),
    }
}

/// The value of the subterm of this number, where each has these.
fn value_at<T: Theory>(found: &[Option<Value<T::Num>>], number: u32) -> Option<Value<T::Num>>
    ensures { (scope : Scope) (defined : List Function) (values : List Val) (terms : List Expr) →
        EachIsValued T.denotes scope defined values terms found.now → number < length found.now →
        IsValued T.denotes scope defined values (term_of terms number) result }
{
    *found.get(number as usize)?
}

/// The values of the subterms of these numbers, where each has these; `None` where one has none.
pub(crate) fn values_at<T: Theory>(
    alloc: Global,
    found: &[Option<Value<T::Num>>],
    numbers: &[u32],
) -> Result<Option<Values<T>>, Want>
    ensures { IfOk result (λ all. (scope : Scope) (defined : List Function) (values : List Val) (terms : List Expr) →
        EachIsValued T.denotes scope defined values terms found.now → AreBelow (length found.now) numbers.now →
        AreValued T.denotes scope defined values (terms_of terms numbers.now) all) }
{
    let mut values = Vec::with_capacity(alloc, numbers.len())?;
    for number in numbers {
        match value_at::<T>(found, *number) {
            Some(value) => values.push(value)?,
            None => return Ok(None),
        }
    }
    Ok(Some(Seq::from(values)))
}

/// The values as terms.
fn constants<T: Theory>(alloc: Global, values: &[Value<T::Num>]) -> Result<Terms<T>, Want>
    ensures { IfOk result (λ terms.
        AreConstants (exprs_of T.denotes terms.items.items) (vals_of T.denotes values.now)) }
{
    let mut terms = Terms::with_capacity(alloc, values.len())?;
    for value in values {
        terms.push(Term::Const(*value))?;
    }
    Ok(terms)
}
