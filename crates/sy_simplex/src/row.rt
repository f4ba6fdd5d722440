// One row of a tableau.
ghost use Rattle.std.specs.Prelude.{◌≡◌, ◌≢◌, ◌<◌, pos, length, IfOk, IsErrOf, MatchOption, get_or};
ghost use Rattle.sy_frac.specs.Fraction.{IsLowest};
ghost use Rattle.sy_simplex.specs.Operations.{fraction_opposite as opposite_of};
ghost use Rattle.sy_simplex.specs.Rows.{at as coefficient_at, AreLowest, IsSolvedAt, SolvedAtUnfit, IsSolvedRow, SolvedUnfit, IsPutRow, PutUnfit};

use crate::fault::Fault;
use crate::fractions::{negated, one, plus_product, zero};
use std::alloc::Global;
use std::marker::Model;
use sy_frac::Frac;

/// The coefficients of one row, by column. Contracts see their list.
#[derive(Drop)]
pub struct Row {
    coefs: Vec<Frac>,
}

impl Model for Row {
    ghost use Rattle.std.specs.Prelude.{List};
    ghost use Rattle.sy_frac.specs.Fraction.{Fraction};

    ghost Value = { List Fraction };

    ghost view = { λ r. r.coefs.items };
}

impl Row {
    /// The row of these coefficients.
    pub fn new(coefs: Vec<Frac>) -> Row
        ensures { result ≡ coefs.items }
    {
        Row { coefs }
    }

    /// The coefficients, by column.
    pub fn as_slice(&self) -> &[Frac]
        ensures { result.now ≡ self.now }
    {
        self.coefs.as_slice()
    }

    /// The row solved for the variable of the column: the variable of the row takes that column.
    /// `Unfit` exactly where a quotient doesn't fit.
    pub(crate) fn solved(&self, alloc: Global, column: usize) -> Result<Row, Fault>
        requires in_bounds { column < length self.now }
        requires nonzero { (coefficient_at self.now column).num ≢ pos 0 }
        ensures ok { IfOk result (λ solved. IsSolvedRow self.now column solved) }
        ensures unfit { IsErrOf result Fault.Unfit → SolvedUnfit self.now column }
    {
        let coefs = solved_coefficients(alloc, self.coefs.as_slice(), column)?;
        Ok(Row { coefs })
    }

    /// Puts the solved row for the column's variable into this one. `None` exactly where a product or sum doesn't fit;
    /// nothing is said of the row then.
    pub(crate) fn put(&mut self, solved: &Row, column: usize) -> Option<()>
        requires same_length { length self.old ≡ length solved.now }
        requires in_bounds { column < length solved.now }
        requires lowest { AreLowest self.old }
        requires solved_lowest { AreLowest solved.now }
        ensures { MatchOption result (PutUnfit self.old solved.now column) (λ _.
            IsPutRow self.old solved.now column self.new) }
    {
        put_coefficients(&mut self.coefs, solved.coefs.as_slice(), column)
    }
}

/// The coefficient of a column in the row solved for the variable of `column`, whose coefficient has this opposite.
fn solved_at(coefs: &[Frac], column: usize, opposite: &Frac, at: usize) -> Option<Frac>
    requires in_bounds { column < length coefs.now }
    requires at_in_bounds { at < length coefs.now }
    requires nonzero { (coefficient_at coefs.now column).num ≢ pos 0 }
    requires opposite_is { opposite.now ≡ opposite_of (coefficient_at coefs.now column) }
    ensures { MatchOption result (SolvedAtUnfit coefs.now column at) (λ q. IsSolvedAt coefs.now column at q) }
{
    if at == column {
        one().div(&coefs[column])
    } else {
        coefs[at].div(opposite)
    }
}

/// The coefficients of the row solved for the variable of the column.
fn solved_coefficients(alloc: Global, coefs: &[Frac], column: usize) -> Result<Vec<Frac>, Fault>
    requires in_bounds { column < length coefs.now }
    requires nonzero { (coefficient_at coefs.now column).num ≢ pos 0 }
    ensures ok { IfOk result (λ solved. IsSolvedRow coefs.now column solved.items) }
    ensures unfit { IsErrOf result Fault.Unfit → SolvedUnfit coefs.now column }
{
    let opposite = negated(&coefs[column]);
    let mut solved = Vec::new(alloc);
    for at in 0..coefs.len() {
        let Some(coefficient) = solved_at(coefs, column, &opposite, at) else {
            return Err(Fault::Unfit);
        };
        solved.push(coefficient)?;
    }
    Ok(solved)
}

/// Puts the solved coefficients for the column's variable into others.
fn put_coefficients(coefs: &mut Vec<Frac>, solved: &[Frac], column: usize) -> Option<()>
    requires same_length { length coefs.old.items ≡ length solved.now }
    requires in_bounds { column < length solved.now }
    requires lowest { AreLowest coefs.old.items }
    requires solved_lowest { AreLowest solved.now }
    ensures { MatchOption result (PutUnfit coefs.old.items solved.now column) (λ _.
        IsPutRow coefs.old.items solved.now column coefs.new.items) }
{
    let factor = coefs[column];
    if factor.num() == 0 {
        return Some(());
    }
    coefs[column] = zero();
    for at in 0..solved.len() {
        let Some(coefficient) = plus_product(&coefs[at], &factor, &solved[at]) else {
            return None;
        };
        coefs[at] = coefficient;
    }
    Some(())
}
