// Evaluation where a function to be found is known by the row of a kept term.
ghost use Rattle.std.specs.Prelude.{◌≡◌, ◌≤◌, ◌++◌, length, IfOk, MatchOption};
ghost use Rattle.sy_terms.specs.Denoted.{val_of, vals_of, AreValid, expr_of, exprs_of};
ghost use Rattle.sy_terms.specs.Definitions.{DefinitionsFit};
ghost use Rattle.sy_loop_candidate.specs.Bodies.{bodies_of, FitsUnder, AllFitUnder};
ghost use Rattle.sy_loop_candidate.specs.Observing.{KeptHaveRows, IsTold, AllAreTold, IsUntold, AllUntold};

use crate::place::value_at;
use std::alloc::Global;
use sy_bank_level::Kept;
use sy_points::Points;
use sy_terms::{Applied, Def, Fun, Term, Terms, Theory, Value, Want};

/// The value of a term under definitions, and under the chosen terms as bodies. A call of a function to be found is
/// answered by its term's row. `None` where a call is at a tuple that isn't among the points, or a value on the way
/// leaves the 128 bits.
#[cycle(observe)]
pub(crate) fn observe<T: Theory>(
    alloc: Global,
    defs: &[Def<T>],
    chosen: &[&Kept<T>],
    points: &Points<T>,
    values: &[Value<T::Num>],
    term: &Term<T>,
) -> Result<Option<Value<T::Num>>, Want>
    requires definitions { DefinitionsFit T.owned T.denotes defs.now }
    requires functions { length chosen.now ≤ length points.now.tuples }
    requires rows { KeptHaveRows T.owned T.denotes defs.now points.now chosen.now }
    requires values { AreValid T.denotes values.now }
    requires term { FitsUnder T.owned defs.now (bodies_of T.denotes chosen.now)
        (vals_of T.denotes values.now) (expr_of T.denotes term.now) }
    ensures { IfOk result (λ found. MatchOption found (IsUntold T.denotes defs.now
        (bodies_of T.denotes chosen.now) points.now (vals_of T.denotes values.now) (expr_of T.denotes term.now))
        (λ value. IsTold T.owned T.denotes defs.now (bodies_of T.denotes chosen.now) points.now
        (vals_of T.denotes values.now) (expr_of T.denotes term.now) (val_of T.denotes value))) }
{
    match term {
        Term::Const(value) => Ok(Some(*value)),
        Term::Var(position) => Ok(Some(values[*position as usize])),
        Term::App(operator, arguments) => {
            let Some(found) = observe_all(alloc, defs, chosen, points, values, arguments)? else {
                return Ok(None);
            };
            match T::apply(operator, found.as_slice()) {
                Applied::Is(value) => Ok(Some(value)),
                Applied::OutOfRange => Ok(None),
            }
        }
        Term::Call(function, arguments) => {
            let Some(found) = observe_all(alloc, defs, chosen, points, values, arguments)? else {
                return Ok(None);
            };
            match function {
                Fun::Defined(number) => {
                    let number = *number as usize;
                    let (earlier, body) = (&defs[..number], &defs[number].body);
                    observe(alloc, earlier, &chosen[..0], points, found.as_slice(), body)
                }
                Fun::Wanted(number) => {
                    let kept = chosen[*number as usize];
                    Ok(value_at::<T>(kept, *number, points, found.as_slice()))
                }
            }
        }
        Term::Let(bound, inner) => {
            let Some(found) = observe_all(alloc, defs, chosen, points, values, bound)? else {
                return Ok(None);
            };
            let longer = joined(alloc, values, found.as_slice())?;
            observe(alloc, defs, chosen, points, longer.as_slice(), inner)
        }
    }
}

/// The values of terms, one after the other; `None` where one has none.
#[cycle(observe)]
fn observe_all<T: Theory>(
    alloc: Global,
    defs: &[Def<T>],
    chosen: &[&Kept<T>],
    points: &Points<T>,
    values: &[Value<T::Num>],
    terms: &Terms<T>,
) -> Result<Option<Vec<Value<T::Num>>>, Want>
    requires definitions { DefinitionsFit T.owned T.denotes defs.now }
    requires functions { length chosen.now ≤ length points.now.tuples }
    requires rows { KeptHaveRows T.owned T.denotes defs.now points.now chosen.now }
    requires values { AreValid T.denotes values.now }
    requires terms { AllFitUnder T.owned defs.now (bodies_of T.denotes chosen.now)
        (vals_of T.denotes values.now) (exprs_of T.denotes terms.now.items.items) }
    ensures { IfOk result (λ found. MatchOption found (AllUntold T.denotes defs.now (bodies_of T.denotes chosen.now)
        points.now (vals_of T.denotes values.now) (exprs_of T.denotes terms.now.items.items))
        (λ all. AllAreTold T.owned T.denotes defs.now (bodies_of T.denotes chosen.now) points.now
        (vals_of T.denotes values.now) (exprs_of T.denotes terms.now.items.items) (vals_of T.denotes all.items))) }
{
    let mut found = Vec::with_capacity(alloc, terms.len())?;
    for term in terms.as_slice() {
        let Some(value) = observe(alloc, defs, chosen, points, values, term)? else {
            return Ok(None);
        };
        found.push(value)?;
    }
    Ok(Some(found))
}

/// One list after the other.
fn joined<X: Copy>(alloc: Global, first: &[X], second: &[X]) -> Result<Vec<X>, Want>
    ensures { IfOk result (λ all. all.items ≡ first.now ++ second.now) }
{
    let mut all = Vec::new(alloc);
    all.extend_from_slice(first)?;
    all.extend_from_slice(second)?;
    Ok(all)
}
