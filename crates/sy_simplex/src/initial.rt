// The initial tableau.
ghost use Rattle.std.specs.Prelude.{◌≡◌, ◌<◌, ◌^◌, length, IfOk, OnOk, IsErrOf, MatchOption};
ghost use Rattle.sy_frac.specs.Fraction.{IsInRange};
ghost use Rattle.sy_simplex.specs.Operations.{fraction_of_whole as whole_fraction};
ghost use Rattle.sy_simplex.specs.Stated.{tableau_state_of};
ghost use Rattle.sy_simplex.specs.Problems.{AreForms, IsForm};
ghost use Rattle.sy_simplex.specs.Runs.{IsInitial};
ghost use Rattle.sy_simplex.specs.Beginnings.{AreCounted, AreZeros, IsBegun, IsFullRow, CoefficientsFit, FormsFit, SomeUnfit};

use crate::fault::Fault;
use crate::fractions::{negated, whole, zero};
use crate::row::Row;
use crate::tableau::Tableau;
use std::alloc::Global;
use sy_frac::Frac;
use sy_linear_known::Form;

/// The fraction of a whole number; `None` exactly where the number is `-2^127`.
fn fraction(number: &i128) -> Option<Frac>
    ensures { MatchOption result (¬ (IsInRange number.now)) (λ f. IsInRange number.now ×
        (f ≡ whole_fraction number.now)) }
{
    let value = *number;
    whole(value)
}

/// The numbers below this one.
fn counted(alloc: Global, count: u32) -> Result<Vec<u32>, Fault>
    ensures ok { IfOk result (λ all. AreCounted count all.items) }
    ensures fits { IsErrOf result Fault.Unfit → ⊥ }
{
    let mut all = Vec::new(alloc);
    for number in 0..count {
        all.push(number)?;
    }
    Ok(all)
}

/// So many zeros.
fn zeros(alloc: Global, count: usize) -> Result<Vec<Frac>, Fault>
    ensures ok { IfOk result (λ all. AreZeros count all.items) }
    ensures fits { IsErrOf result Fault.Unfit → ⊥ }
{
    let mut all = Vec::new(alloc);
    for _place in 0..count {
        all.push(zero())?;
    }
    Ok(all)
}

/// The full row of a form's coefficients; `Unfit` exactly where one of them doesn't fit.
fn full_row(alloc: Global, vars: u32, form: &Form) -> Result<Vec<Frac>, Fault>
    requires { IsForm vars form.now }
    ensures fits { IfOk result (λ row. CoefficientsFit form.now.coefs) }
    ensures ok { IfOk result (λ row. IsFullRow vars form.now.coefs row.items) }
    ensures unfit { IsErrOf result Fault.Unfit → ¬ (CoefficientsFit form.now.coefs) }
{
    let mut row = zeros(alloc, vars as usize)?;
    for (variable, coefficient) in form.coefs.as_slice() {
        let Some(fraction) = fraction(coefficient) else {
            return Err(Fault::Unfit);
        };
        row[*variable as usize] = fraction;
    }
    Ok(row)
}

/// Appends the variable, the row and the bound of each form; `Unfit` exactly where a coefficient or constant of a form
/// doesn't fit.
fn begin(
    alloc: Global,
    vars: u32,
    forms: &[Form],
    basics: &mut Vec<u32>,
    rows: &mut Vec<Row>,
    bounds: &mut Vec<Frac>,
) -> Result<(), Fault>
    requires forms { AreForms vars forms.now }
    requires few_vars { vars < 2 ^ 31 }
    requires few_forms { length forms.now < 2 ^ 31 }
    requires none { IsBegun vars forms.now 0 basics.old.items rows.old.items bounds.old.items }
    ensures begun { OnOk result
        (IsBegun vars forms.now (length forms.now) basics.new.items rows.new.items bounds.new.items) }
    ensures unfit { IsErrOf result Fault.Unfit → SomeUnfit forms.now }
{
    for at in 0..forms.len() {
        let form = &forms[at];
        let row = match full_row(alloc, vars, form) {
            Ok(row) => row,
            Err(fault) => return Err(fault),
        };
        rows.push(Row::new(row))?;
        basics.push(vars + at as u32)?;
        let Some(constant) = fraction(&form.constant) else {
            return Err(Fault::Unfit);
        };
        bounds.push(negated(&constant))?;
    }
    Ok(())
}

/// The initial tableau: each row is a form's, and everything stands at 0. `Unfit` exactly where a coefficient or
/// constant of a form doesn't fit.
pub(crate) fn initial(alloc: Global, vars: u32, forms: &[Form]) -> Result<Tableau, Fault>
    requires forms { AreForms vars forms.now }
    requires few_vars { vars < 2 ^ 31 }
    requires few_forms { length forms.now < 2 ^ 31 }
    ensures fits { IfOk result (λ tableau. FormsFit forms.now) }
    ensures ok { IfOk result (λ tableau. IsInitial vars forms.now (tableau_state_of tableau)) }
    ensures unfit { IsErrOf result Fault.Unfit → SomeUnfit forms.now }
{
    let columns = counted(alloc, vars)?;
    let values = zeros(alloc, forms.len())?;
    let mut basics = Vec::new(alloc);
    let mut rows = Vec::new(alloc);
    let mut bounds = Vec::new(alloc);
    match begin(alloc, vars, forms, &mut basics, &mut rows, &mut bounds) {
        Ok(()) => Ok(Tableau {
            vars,
            columns,
            basics,
            rows,
            values,
            bounds,
        }),
        Err(fault) => Err(fault),
    }
}
