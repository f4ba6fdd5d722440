// Evaluation under definitions.
ghost use Rattle.std.specs.Prelude.{◌≡◌, ◌++◌, [], IfOk, OnOk, OnErr, IsErrOf, false};
ghost use Rattle.sy_terms.specs.Denoted.{val_of, vals_of, AreValid, expr_of, exprs_of};
ghost use Rattle.sy_terms.specs.Definitions.{DefinitionsFit, scope_of};
ghost use Rattle.sy_terms_operators.specs.Evaluation.{TermFits, FitsWith, AllFitWith, GivesValue, AllGive, can_compute, can_compute_all};
ghost use Rattle.sy_terms_operators.specs.Tracing.{GainsCalls, TracedSome};
ghost use Rattle.sy_terms_operators.specs.Asking.{asks, all_asks, StandsWith};
ghost use Rattle.sy_meaning.specs.Calls.{AsksRightly, AllAskRightly};

use crate::trace::Trace;
use std::alloc::{AllocFailed, Global};
use sy_terms::{Applied, Bodies, Def, Defs, Fun, Seq, Term, Terms, Theory, Value, Want};

/// Why a term has no value here.
#[derive(Clone, Copy, Debug, PartialEq, Eq)]
pub enum Eval {
    /// A value on the way lies outside 128 bits.
    Range,
    Want,
}

impl From<Want> for Eval {
    ghost use Rattle.sy_meaning.specs.declared.evaluation.Eval.TheVariants.{Want as WantOfMemory};

    ghost from_gives = { λ _ end. end ≡ WantOfMemory };

    fn from(_: Want) -> Eval {
        Eval::Want
    }
}

impl<X: Drop> From<AllocFailed<X>> for Eval {
    ghost use Rattle.sy_meaning.specs.declared.evaluation.Eval.TheVariants.{Want as WantOfMemory};

    ghost from_gives = { λ _ end. end ≡ WantOfMemory };

    fn from(_: AllocFailed<X>) -> Eval {
        Eval::Want
    }
}

/// The value of a term that calls no function to be found, under definitions and a list of values.
pub fn evaluate<T: Theory>(
    alloc: Global,
    defs: &Defs<T>,
    values: &[Value<T::Num>],
    term: &Term<T>,
) -> Result<Value<T::Num>, Eval>
    requires definitions { DefinitionsFit T.owned T.denotes defs.now }
    requires values { AreValid T.denotes values.now }
    requires term { FitsWith T.owned T.denotes defs.now [] (vals_of T.denotes values.now) (expr_of T.denotes term.now) }
    ensures ok { IfOk result (λ v. GivesValue T.owned T.denotes defs.now [] (vals_of T.denotes values.now)
        (expr_of T.denotes term.now) (val_of T.denotes v)) }
    ensures range { IsErrOf result Eval.Range →
        can_compute T.denotes defs.now [] (vals_of T.denotes values.now) (expr_of T.denotes term.now) ≡ false }
{
    let bodies: Bodies<T> = Seq::new(alloc);
    let mut trace = Trace::new(alloc);
    evaluate_under(
        alloc,
        defs.as_slice(),
        bodies.as_slice(),
        values,
        term,
        &mut trace,
    )
}

/// The value of a term, with bodies for the functions to be found. The trace gains what the term asks of these; each
/// such call is at values of the sorts that its function takes. Under other bodies with the same values at what it
/// asks, the term has the same value and asks the same.
pub fn evaluate_with<T: Theory>(
    alloc: Global,
    defs: &Defs<T>,
    bodies: &Bodies<T>,
    values: &[Value<T::Num>],
    term: &Term<T>,
    trace: &mut Trace<T>,
) -> Result<Value<T::Num>, Eval>
    requires definitions { DefinitionsFit T.owned T.denotes defs.now }
    requires values { AreValid T.denotes values.now }
    requires term { FitsWith T.owned T.denotes defs.now bodies.now
        (vals_of T.denotes values.now) (expr_of T.denotes term.now) }
    ensures ok { IfOk result (λ v. GivesValue T.owned T.denotes defs.now bodies.now
        (vals_of T.denotes values.now) (expr_of T.denotes term.now) (val_of T.denotes v)) }
    ensures range { IsErrOf result Eval.Range →
        can_compute T.denotes defs.now bodies.now (vals_of T.denotes values.now) (expr_of T.denotes term.now) ≡ false }
    ensures traced { OnOk result (GainsCalls trace.old
        (asks T.denotes defs.now bodies.now (vals_of T.denotes values.now) (expr_of T.denotes term.now)) trace.new) }
    ensures begun { OnErr result (TracedSome trace.old
        (asks T.denotes defs.now bodies.now (vals_of T.denotes values.now) (expr_of T.denotes term.now)) trace.new) }
    ensures agreement { StandsWith T.denotes defs.now bodies.now
        (vals_of T.denotes values.now) (expr_of T.denotes term.now) }
    ensures calls { OnOk result (AsksRightly T.owned T.denotes defs.now bodies.now
        (vals_of T.denotes values.now) (expr_of T.denotes term.now)) }
{
    evaluate_under(
        alloc,
        defs.as_slice(),
        bodies.as_slice(),
        values,
        term,
        trace,
    )
}

/// The value of a term under definitions and bodies. A body, as that of a definition, calls no function to be found.
#[cycle(evaluate)]
fn evaluate_under<T: Theory>(
    alloc: Global,
    defs: &[Def<T>],
    bodies: &[Term<T>],
    values: &[Value<T::Num>],
    term: &Term<T>,
    trace: &mut Trace<T>,
) -> Result<Value<T::Num>, Eval>
    requires definitions { DefinitionsFit T.owned T.denotes defs.now }
    requires values { AreValid T.denotes values.now }
    requires term { FitsWith T.owned T.denotes defs.now bodies.now
        (vals_of T.denotes values.now) (expr_of T.denotes term.now) }
    ensures ok { IfOk result (λ v. GivesValue T.owned T.denotes defs.now bodies.now
        (vals_of T.denotes values.now) (expr_of T.denotes term.now) (val_of T.denotes v)) }
    ensures range { IsErrOf result Eval.Range →
        can_compute T.denotes defs.now bodies.now (vals_of T.denotes values.now) (expr_of T.denotes term.now) ≡ false }
    ensures traced { OnOk result (GainsCalls trace.old
        (asks T.denotes defs.now bodies.now (vals_of T.denotes values.now) (expr_of T.denotes term.now)) trace.new) }
    ensures begun { OnErr result (TracedSome trace.old
        (asks T.denotes defs.now bodies.now (vals_of T.denotes values.now) (expr_of T.denotes term.now)) trace.new) }
    ensures calls { OnOk result (AsksRightly T.owned T.denotes defs.now bodies.now
        (vals_of T.denotes values.now) (expr_of T.denotes term.now)) }
{
    match term {
        Term::Const(value) => Ok(*value),
        Term::Var(position) => Ok(values[*position as usize]),
        Term::App(operator, arguments) => {
            let found = evaluate_all(alloc, defs, bodies, values, arguments, trace)?;
            match T::apply(operator, found.as_slice()) {
                Applied::Is(value) => Ok(value),
                Applied::OutOfRange => Err(Eval::Range),
            }
        }
        Term::Call(function, arguments) => {
            let found = evaluate_all(alloc, defs, bodies, values, arguments, trace)?;
            match function {
                Fun::Defined(number) => {
                    let number = *number as usize;
                    let body = &defs[number].body;
                    evaluate_under(
                        alloc,
                        &defs[..number],
                        &bodies[..0],
                        found.as_slice(),
                        body,
                        trace,
                    )
                }
                Fun::Wanted(number) => {
                    trace.note(alloc, *number, found.as_slice())?;
                    let body = &bodies[*number as usize];
                    evaluate_under(alloc, defs, &bodies[..0], found.as_slice(), body, trace)
                }
            }
        }
        Term::Let(bound, inner) => {
            let found = evaluate_all(alloc, defs, bodies, values, bound, trace)?;
            let longer = joined(alloc, values, found.as_slice())?;
            evaluate_under(alloc, defs, bodies, longer.as_slice(), inner, trace)
        }
    }
}

/// The values of terms under definitions and bodies.
#[cycle(evaluate)]
fn evaluate_all<T: Theory>(
    alloc: Global,
    defs: &[Def<T>],
    bodies: &[Term<T>],
    values: &[Value<T::Num>],
    terms: &Terms<T>,
    trace: &mut Trace<T>,
) -> Result<Vec<Value<T::Num>>, Eval>
    requires definitions { DefinitionsFit T.owned T.denotes defs.now }
    requires values { AreValid T.denotes values.now }
    requires terms { AllFitWith T.owned T.denotes defs.now bodies.now
        (vals_of T.denotes values.now) (exprs_of T.denotes terms.now.items.items) }
    ensures ok { IfOk result (λ vs. AllGive T.owned T.denotes defs.now bodies.now
        (vals_of T.denotes values.now) (exprs_of T.denotes terms.now.items.items) (vals_of T.denotes vs.items)) }
    ensures range { IsErrOf result Eval.Range → can_compute_all T.denotes defs.now bodies.now
        (vals_of T.denotes values.now) (exprs_of T.denotes terms.now.items.items) ≡ false }
    ensures traced { OnOk result (GainsCalls trace.old (all_asks T.denotes defs.now bodies.now
        (vals_of T.denotes values.now) (exprs_of T.denotes terms.now.items.items)) trace.new) }
    ensures begun { OnErr result (TracedSome trace.old (all_asks T.denotes defs.now bodies.now
        (vals_of T.denotes values.now) (exprs_of T.denotes terms.now.items.items)) trace.new) }
    ensures calls { OnOk result (AllAskRightly T.owned T.denotes defs.now bodies.now
        (vals_of T.denotes values.now) (exprs_of T.denotes terms.now.items.items)) }
{
    let mut found = Vec::with_capacity(alloc, terms.len())?;
    for term in terms.as_slice() {
        let value = evaluate_under(alloc, defs, bodies, values, term, trace)?;
        found.push(value)?;
    }
    Ok(found)
}

/// One list after the other.
pub(crate) fn joined<X: Copy>(alloc: Global, first: &[X], second: &[X]) -> Result<Vec<X>, Want>
    ensures { IfOk result (λ all. all.items ≡ first.now ++ second.now) }
{
    let mut all = Vec::new(alloc);
    all.extend_from_slice(first)?;
    all.extend_from_slice(second)?;
    Ok(all)
}
