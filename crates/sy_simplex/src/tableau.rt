// A tableau, and one step of it.
ghost use Rattle.std.specs.Prelude.{◌≡◌, ◌≢◌, ℕ, ◌<◌, ◌≤◌, ◌+◌, pos, [], length, get_or, vec_len, OnOk, IsErrOf, MatchOption};
ghost use Rattle.sy_simplex.specs.Rows.{AreLowest, ArePut, PutUnfitBeside, AreRaised, RaisedUnfitBeside};
ghost use Rattle.sy_simplex.specs.States.{TableauState, IsShaped, IsVariable, IsPivot, StepUnfit, variable_of_column as column_variable, basic, coef, rest as rest_of};
ghost use Rattle.sy_simplex.specs.Stated.{tableau_state_of};

use crate::fault::Fault;
use crate::fractions::{plus_product, shift, zero};
use crate::row::Row;
use std::alloc::Global;
use sy_frac::Frac;

/// A tableau. Variables below `vars` are free, and `vars + i` is the variable of form `i`.
#[derive(Drop)]
pub struct Tableau {
    pub vars: u32,
    /// The variable of each column.
    pub columns: Vec<u32>,
    /// The variable of each row.
    pub basics: Vec<u32>,
    /// Each row's variable as a combination of the columns' variables.
    pub rows: Vec<Row>,
    /// The value of each row's variable.
    pub values: Vec<Frac>,
    /// The bound of each form's variable.
    pub bounds: Vec<Frac>,
}

impl Tableau {
    /// The value of a column's variable: a free one stands at 0, a form's at its bound.
    pub fn rest(&self, variable: u32) -> Frac
        requires { IsVariable (tableau_state_of self.now) variable }
        ensures { result ≡ rest_of (tableau_state_of self.now) variable }
    {
        if variable < self.vars {
            zero()
        } else {
            self.bounds[(variable - self.vars) as usize]
        }
    }

    /// Exchanges the variables of the row and of the column, and leaves the first at its bound.
    /// `Unfit` exactly where an operation doesn't fit; nothing is said of the tableau after an error.
    pub fn exchange(&mut self, alloc: Global, row: usize, column: usize) -> Result<(), Fault>
        requires shaped { IsShaped (tableau_state_of self.old) }
        requires row_below { row < length (tableau_state_of self.old).basics }
        requires column_below { column < length (tableau_state_of self.old).columns }
        requires bounded { self.old.vars ≤ basic (tableau_state_of self.old) row }
        requires nonzero { (coef (tableau_state_of self.old) row column).num ≢ pos 0 }
        ensures ok { OnOk result (IsPivot (tableau_state_of self.old) (tableau_state_of self.new) row column) }
        ensures shaped { OnOk result (IsShaped (tableau_state_of self.new)) }
        ensures unfit { IsErrOf result Fault.Unfit → StepUnfit (tableau_state_of self.old) row column }
    {
        let leaves = self.basics[row];
        let enters = self.columns[column];
        let bound = self.bounds[(leaves - self.vars) as usize];
        let Some(shift) = shift(
            &bound,
            &self.values[row],
            &self.rows[row].as_slice()[column],
        ) else {
            return Err(Fault::Unfit);
        };
        let Some(entered) = self.rest(enters).add(&shift) else {
            return Err(Fault::Unfit);
        };
        let solved = self.rows[row].solved(alloc, column)?;
        if raise_others(&mut self.values, self.rows.as_slice(), row, column, &shift).is_none() {
            return Err(Fault::Unfit);
        }
        if put_into_others(&mut self.rows, &solved, row, column).is_none() {
            return Err(Fault::Unfit);
        }
        self.values[row] = entered;
        self.rows[row] = solved;
        self.basics[row] = enters;
        self.columns[column] = leaves;
        Ok(())
    }
}

/// Raises the value of each row but `row` by its coefficient of the column times the shift.
/// `None` exactly where a product or sum doesn't fit; nothing is said of the values then.
fn raise_others(
    values: &mut Vec<Frac>,
    rows: &[Row],
    row: usize,
    column: usize,
    shift: &Frac,
) -> Option<()>
    requires same_length { vec_len values.old ≡ length rows.now }
    requires column_below { (i : ℕ) → i < length rows.now → column < length (get_or rows.now i []) }
    ensures { MatchOption result (RaisedUnfitBeside values.old.items rows.now row column shift.now) (λ _.
        AreRaised values.old.items rows.now row column shift.now values.new.items) }
{
    for at in 0..rows.len() {
        if at != row {
            let coefficient = &rows[at].as_slice()[column];
            let Some(value) = plus_product(&values[at], coefficient, shift) else {
                return None;
            };
            values[at] = value;
        }
    }
    Some(())
}

/// Puts the solved row for the column's variable into each row but `row`.
/// `None` exactly where a product or sum doesn't fit; nothing is said of the rows then.
fn put_into_others(rows: &mut Vec<Row>, solved: &Row, row: usize, column: usize) -> Option<()>
    requires widths { (i : ℕ) → i < length rows.old.items → length (get_or rows.old.items i []) ≡ length solved.now }
    requires column_below { column < length solved.now }
    requires lowest { (i : ℕ) → i < length rows.old.items → AreLowest (get_or rows.old.items i []) }
    requires solved_lowest { AreLowest solved.now }
    ensures { MatchOption result (PutUnfitBeside rows.old.items solved.now row column) (λ _.
        ArePut rows.old.items solved.now row column rows.new.items) }
{
    for at in 0..rows.len() {
        if at != row && rows[at].put(solved, column).is_none() {
            return None;
        }
    }
    Some(())
}
