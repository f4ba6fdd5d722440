// Rows of definitions at rows.
ghost use Rattle.std.specs.Prelude.{◌≡◌, ℕ, ◌<◌, false, [], IfOk, IfErr, IsErrOf, length, map};
ghost use Rattle.sy_terms.specs.Denoted.{val_of, vals_of, expr_of};
ghost use Rattle.sy_terms.specs.Definitions.{DefinitionsFit};
ghost use Rattle.sy_terms.specs.Expr.{Invoke};
ghost use Rattle.sy_terms.specs.Meaning.{value_at_position};
ghost use Rattle.sy_terms.specs.declared.term.Fun.TheVariants.{Defined};
ghost use Rattle.sy_terms_operators.specs.Evaluation.{FitsWith, GivesValue, can_compute};
ghost use Rattle.sy_bank_level.specs.Columns.{column, constants, AreSized};
ghost use Rattle.sy_bank_columns.specs.Lent.{row_values};
ghost use Rattle.sy_bank_columns.specs.Found.{WhereLost};

use crate::ends::{RowEnd, lost_at};
use crate::lent::Row;
use std::alloc::{AllocError, Global};
use sy_meaning::{Eval, evaluate};
use sy_terms::{Defs, Fun, Term, Terms, Theory, Value};

/// The call of the definition at constants, which are what the rows have at the place of this number.
fn call_at<T: Theory>(
    alloc: Global,
    definition: u32,
    rows: &[Row<'_, Value<T::Num>>],
    number: usize,
    count: usize,
) -> Result<Term<T>, AllocError>
    requires sized { AreSized count (map (λ row. vals_of T.denotes (row_values row)) rows.now) }
    requires within { number < count }
    ensures { IfOk result (λ term. expr_of T.denotes term ≡ Invoke (Defined definition)
        (constants (column (map (λ row. vals_of T.denotes (row_values row)) rows.now) number))) }
{
    let mut arguments = Terms::with_capacity(alloc, rows.len())?;
    for row in rows {
        arguments.push(Term::Const(row.as_slice()[number]))?;
    }
    Ok(Term::Call(Fun::Defined(definition), arguments))
}

/// The definition's value at constants, which are what the rows have at the place of this number.
fn called_value<T: Theory>(
    alloc: Global,
    defs: &Defs<T>,
    definition: u32,
    rows: &[Row<'_, Value<T::Num>>],
    number: usize,
    count: usize,
) -> Result<Value<T::Num>, Eval>
    requires definitions { DefinitionsFit T.owned T.denotes defs.now }
    requires sized { AreSized count (map (λ row. vals_of T.denotes (row_values row)) rows.now) }
    requires within { number < count }
    requires fit { FitsWith T.owned T.denotes defs.now [] [] (Invoke (Defined definition)
        (constants (column (map (λ row. vals_of T.denotes (row_values row)) rows.now) number))) }
    ensures ok { IfOk result (λ value. GivesValue T.owned T.denotes defs.now [] [] (Invoke (Defined definition)
        (constants (column (map (λ row. vals_of T.denotes (row_values row)) rows.now) number)))
        (val_of T.denotes value)) }
    ensures range { IsErrOf result Eval.Range → can_compute T.denotes defs.now [] [] (Invoke (Defined definition)
        (constants (column (map (λ row. vals_of T.denotes (row_values row)) rows.now) number))) ≡ false }
{
    let term = call_at::<T>(alloc, definition, rows, number, count)?;
    let nothing = Vec::new(alloc);
    evaluate(alloc, defs, nothing.as_slice(), &term)
}

/// The definition's values at the columns of the rows, of which each has `count` values.
pub fn called_row<T: Theory>(
    alloc: Global,
    defs: &Defs<T>,
    definition: u32,
    rows: &[Row<'_, Value<T::Num>>],
    count: usize,
) -> Result<Vec<Value<T::Num>>, RowEnd>
    requires definitions { DefinitionsFit T.owned T.denotes defs.now }
    requires sized { AreSized count (map (λ row. vals_of T.denotes (row_values row)) rows.now) }
    requires fit { (k : ℕ) → k < count → FitsWith T.owned T.denotes defs.now [] [] (Invoke (Defined definition)
        (constants (column (map (λ row. vals_of T.denotes (row_values row)) rows.now) k))) }
    ensures sized { IfOk result (λ found. length found.items ≡ count) }
    ensures ok { IfOk result (λ found. (k : ℕ) → k < count → GivesValue T.owned T.denotes defs.now [] []
        (Invoke (Defined definition) (constants (column (map (λ row. vals_of T.denotes (row_values row)) rows.now) k)))
        (value_at_position (vals_of T.denotes found.items) k)) }
    ensures lost { IfErr result (λ end.
        WhereLost end (λ k. (k < count) × (can_compute T.denotes defs.now [] [] (Invoke (Defined definition)
        (constants (column (map (λ row. vals_of T.denotes (row_values row)) rows.now) k))) ≡ false))) }
{
    let mut found = Vec::with_capacity(alloc, count)?;
    for number in 0..count {
        match called_value(alloc, defs, definition, rows, number, count) {
            Ok(value) => found.push(value)?,
            Err(Eval::Range) => return Err(lost_at(number)),
            Err(Eval::Want) => return Err(RowEnd::Want),
        }
    }
    Ok(found)
}
