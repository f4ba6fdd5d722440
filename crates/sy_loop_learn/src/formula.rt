// Formulas: what isn't needed is left out, and all that is answered is tested.
ghost use Rattle.std.specs.Prelude.{◌≡◌, ◌<◌, IsTrue, All, slice_get};
ghost use Rattle.sy_loop_learn.specs.Formulas as spec;

use crate::Learner;
use crate::clause::{Clause, clause_cost, joined};
use crate::labels::Label;
use crate::literal::Literal;
use crate::row::Row;
use crate::score::Priced;
use sy_seq::Want;

/// Sets a mark.
fn set(marks: &mut Vec<bool>, place: usize, value: bool) {
    if let Some(mark) = marks.get_mut(place) {
        *mark = value;
    }
}

/// Whether the literal holds at the point, if there is one.
fn holds_at(literals: &[Literal], number: usize, point: usize) -> bool
    ensures { result ≡ spec.holds_at (slice_get literals.now number) point }
{
    match literals.get(number) {
        None => false,
        Some(literal) => literal.row.has(point),
    }
}

/// Whether one of the literals holds at the point.
fn clause_holds(literals: &[Literal], clause: &[usize], point: usize) -> bool
    ensures { result ≡ spec.clause_holds literals.now point clause.now }
{
    clause
        .iter()
        .any(|number| holds_at(literals, *number, point))
}

/// Whether the formula holds at the point.
fn holds(literals: &[Literal], formula: &[Vec<usize>], point: usize) -> bool
    ensures { result ≡ spec.formula_holds literals.now formula.now point }
{
    formula
        .iter()
        .all(|clause| clause_holds(literals, clause.as_slice(), point))
}

/// Whether one of the labels is the formula's at its point.
fn meets(literals: &[Literal], formula: &[Vec<usize>], condition: &[Label]) -> bool
    ensures { result ≡ spec.meets literals.now formula.now condition.now }
{
    condition.iter().any(|label| holds(literals, formula, label.point) == label.inside)
}

/// Whether the formula meets all conditions.
pub(crate) fn meets_all(
    literals: &[Literal],
    formula: &[Vec<usize>],
    conditions: &[Vec<Label>],
) -> bool
    ensures { result ≡ spec.meets_all literals.now conditions.now formula.now }
{
    conditions
        .iter()
        .all(|condition| meets(literals, formula, condition.as_slice()))
}

/// Whether each number is below the bound.
fn are_below(numbers: &[usize], bound: usize) -> bool
    ensures { IsTrue result → All (λ number. number < bound) numbers.now }
{
    numbers.iter().all(|number| *number < bound)
}

/// Whether each number of the formula is below the bound.
pub(crate) fn is_below(formula: &[Vec<usize>], bound: usize) -> bool
    ensures { IsTrue result → spec.IsBelow bound formula.now }
{
    formula
        .iter()
        .all(|clause| are_below(clause.as_slice(), bound))
}

impl Learner {
    /// The places of the clauses by ascending cost.
    fn places_by_cost(&self, clauses: &[Clause]) -> Result<Vec<Priced>, Want> {
        let mut places = Vec::new(self.alloc);
        for (number, clause) in clauses.iter().enumerate() {
            let numbers = clause.literals.as_slice();
            let cost = clause_cost(self.literals.as_slice(), numbers, self.shrinking);
            places.push(Priced { cost, number })?;
        }
        places.sort()?;
        Ok(places)
    }

    /// Whether the marked ones of these clauses do.
    fn suffices(&self, clauses: &[Clause], marks: &[bool]) -> bool {
        let mut row = self.all;
        for (clause, mark) in clauses.iter().zip(marks) {
            if *mark {
                row.keep(&clause.row);
            }
        }
        !row.meets(&self.labels.outside) && self.labels.unmet(&row).is_none()
    }

    /// Marks at clauses that do without the others; the dearest are left out first.
    fn needed(&self, clauses: &[Clause]) -> Result<Vec<bool>, Want> {
        let mut marks = Vec::from_elem(self.alloc, true, clauses.len())?;
        let places = self.places_by_cost(clauses)?;
        for place in places.iter().rev() {
            set(&mut marks, place.number, false);
            if !self.suffices(clauses, marks.as_slice()) {
                set(&mut marks, place.number, true);
            }
        }
        Ok(marks)
    }

    /// The literals of the clauses that are needed.
    pub(crate) fn shortened(&self, clauses: &[Clause]) -> Result<Vec<Vec<usize>>, Want> {
        let marks = self.needed(clauses)?;
        let mut formula = Vec::new(self.alloc);
        for (clause, mark) in clauses.iter().zip(&marks) {
            if *mark {
                formula.push(clause.literals.clone()?)?;
            }
        }
        Ok(formula)
    }

    /// Adds to the costs of the literals of a clause. Those that stand in the problem stay what they are beside others.
    pub(crate) fn bump(&mut self, clause: &[usize], by: u32) {
        for number in clause {
            if let Some(literal) = self.literals.get_mut(*number) {
                if clause.len() < 2 || !literal.traits.program {
                    literal.bump = literal.bump.saturating_add(by);
                }
            }
        }
    }

    /// Whether the clause is false at one of these points that may be in.
    pub(crate) fn fails(&self, clause: &[usize], points: &[usize]) -> bool {
        let row: Row = joined(self.literals.as_slice(), clause);
        for point in points {
            if !row.has(*point) && !self.labels.outside.has(*point) {
                return true;
            }
        }
        false
    }
}
