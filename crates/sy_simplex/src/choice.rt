// The choice of a step by Bland's rule.
ghost use Rattle.std.specs.Prelude.{◌≡◌, ◌≢◌, ◌<◌, ◌≤◌, ◌+◌, ◌↔◌, ◌⊎◌, ◌<ℤ◌, IsTrue, pos, length, MatchOption};
ghost use Rattle.sy_simplex.specs.Rows.{LeastRaising, NoneRaises};
ghost use Rattle.sy_simplex.specs.States.{IsShaped, IsAtLeast, IsClear, BoundsAreMet, FirstUnclear, SomeChoiceUnfit};
ghost use Rattle.sy_simplex.specs.Stated.{tableau_state_of};
ghost use Rattle.sy_simplex.specs.Choices.{IsChoice};

use crate::tableau::Tableau;
use std::cmp::Ordering;
use sy_frac::Frac;

/// What a tableau asks for next.
pub enum Choice {
    /// Nothing: no variable is below its bound.
    Met,
    /// Nothing: the variable of this row is below its bound, and no column can raise it.
    Stuck(usize),
    /// The exchange of the variables of a row and a column.
    Exchange(usize, usize),
}

/// Whether the two compare, and the first isn't below the second.
fn is_at_least(value: &Frac, bound: &Frac) -> bool
    ensures { IsTrue result ↔ IsAtLeast value.now bound.now }
{
    matches!(
        value.compare(bound),
        Some(Ordering::Equal | Ordering::Greater)
    )
}

/// Whether a column with this coefficient can raise its row: the coefficient is positive, or it is negative and the
/// variable is free.
fn can_raise(coefficient: &Frac, free: bool) -> bool
    ensures { IsTrue result ↔ ((pos 0 <ℤ coefficient.now.num) ⊎ ((coefficient.now.num <ℤ pos 0) × IsTrue free)) }
{
    let num = coefficient.num();
    num > 0 || num < 0 && free
}

/// The column of the least variable that can raise a row with these coefficients.
fn entering_column(columns: &[u32], coefs: &[Frac], vars: u32) -> Option<usize>
    requires { length columns.now ≡ length coefs.now }
    ensures { MatchOption result (NoneRaises columns.now coefs.now vars (length columns.now)) (λ at.
        LeastRaising columns.now coefs.now vars (length columns.now) at) }
{
    let mut best: Option<usize> = None;
    for at in 0..columns.len() {
        if can_raise(&coefs[at], columns[at] < vars) {
            match best {
                Some(other) => {
                    if columns[at] < columns[other] {
                        best = Some(at);
                    }
                },
                None => best = Some(at),
            }
        }
    }
    best
}

impl Tableau {
    /// Whether the row's variable is free, or at least its bound.
    fn is_clear(&self, row: usize) -> bool
        requires shaped { IsShaped (tableau_state_of self.now) }
        requires row_below { row < length (tableau_state_of self.now).basics }
        ensures { IsTrue result ↔ IsClear (tableau_state_of self.now) row }
    {
        let variable = self.basics[row];
        variable < self.vars
            || is_at_least(
                &self.values[row],
                &self.bounds[(variable - self.vars) as usize],
            )
    }

    /// The row of the least variable that isn't clear.
    fn first_unclear(&self) -> Option<usize>
        requires { IsShaped (tableau_state_of self.now) }
        ensures { MatchOption result (BoundsAreMet (tableau_state_of self.now)) (λ r.
            FirstUnclear (tableau_state_of self.now) (length (tableau_state_of self.now).basics) r) }
    {
        let mut best: Option<usize> = None;
        for at in 0..self.basics.len() {
            if !self.is_clear(at) {
                match best {
                    Some(other) => {
                        if self.basics[at] < self.basics[other] {
                            best = Some(at);
                        }
                    },
                    None => best = Some(at),
                }
            }
        }
        best
    }

    /// The next exchange by Bland's rule, or the end of the run. `None` exactly where a comparison doesn't fit.
    pub fn choose(&self) -> Option<Choice>
        requires { IsShaped (tableau_state_of self.now) }
        ensures { MatchOption result (SomeChoiceUnfit (tableau_state_of self.now)) (λ choice.
            IsChoice (tableau_state_of self.now) choice) }
    {
        let Some(row) = self.first_unclear() else {
            return Some(Choice::Met);
        };
        let bound = &self.bounds[(self.basics[row] - self.vars) as usize];
        if self.values[row].compare(bound).is_none() {
            return None;
        }
        match entering_column(
            self.columns.as_slice(),
            self.rows[row].as_slice(),
            self.vars,
        ) {
            None => Some(Choice::Stuck(row)),
            Some(column) => Some(Choice::Exchange(row, column)),
        }
    }
}
