// One formula, clause by clause.
use crate::Learner;
use crate::clause::{Clause, clause_cost};
use crate::labels::Label;
use crate::row::Row;
use crate::search::Target;
use sy_seq::Want;

/// How many turns a formula may take.
const TURNS: usize = 3_000;
/// The most that a clause may cost which is there for a condition alone.
const MOST_COST: u32 = 600;

/// A formula as far as it is.
#[derive(Drop)]
pub(crate) struct Attempt {
    /// The points at which it has to hold.
    inside: Row,
    /// The points at which it has not to.
    need: Row,
    /// The points at which it does.
    row: Row,
    pub(crate) clauses: Vec<Clause>,
    /// The literals that hold wherever it has to.
    candidates: Vec<usize>,
}

/// What has become of an attempt.
enum Turn {
    Going,
    /// It meets all conditions.
    Done,
    /// The class has no formula.
    Stuck,
}

impl Learner {
    /// A formula with no clause, which has to hold at these points.
    fn attempt(&self, inside: Row) -> Result<Attempt, Want> {
        let mut candidates = Vec::new(self.alloc);
        for (number, literal) in self.literals.iter().enumerate() {
            let fits = self.class.has_all() || literal.traits.program || literal.traits.hull;
            if fits && literal.known && inside.is_within(&literal.row) {
                candidates.push(number)?;
            }
        }
        Ok(Attempt {
            inside,
            need: self.labels.outside,
            row: self.all,
            clauses: Vec::new(self.alloc),
            candidates,
        })
    }

    /// Begins anew with a formula that has to hold at these points.
    fn restart(&self, attempt: &mut Attempt, inside: Row) -> Result<Turn, Want> {
        if inside.meets(&self.labels.outside) {
            return Ok(Turn::Stuck);
        }
        *attempt = self.attempt(inside)?;
        Ok(Turn::Going)
    }

    /// Takes a clause that excludes the point; where the class has none, the point is to be in.
    fn exclude(&mut self, attempt: &mut Attempt, point: usize) -> Result<Turn, Want> {
        let mut need = attempt.need;
        need.keep(&attempt.row);
        let inside = attempt.inside;
        let target = Target {
            point,
            need,
            inside,
        };
        if let Some(clause) = self.best_clause(&target, attempt.candidates.as_slice())? {
            attempt.row.keep(&clause.row);
            attempt.clauses.push(clause)?;
            return Ok(Turn::Going);
        }
        if self.labels.outside.has(point) {
            return Ok(Turn::Stuck);
        }
        let mut inside = attempt.inside;
        inside.insert(point);
        self.restart(attempt, inside)
    }

    /// The cost of the best clause that excludes the point; `None` where the class has none.
    fn exclusion_cost(&mut self, attempt: &Attempt, point: usize) -> Result<Option<u32>, Want> {
        let mut need = Row::empty();
        need.insert(point);
        let inside = attempt.inside;
        let target = Target {
            point,
            need,
            inside,
        };
        match self.best_clause(&target, attempt.candidates.as_slice())? {
            None => Ok(None),
            Some(clause) => Ok(Some(clause_cost(
                self.literals.as_slice(),
                clause.literals.as_slice(),
                self.shrinking,
            ))),
        }
    }

    /// The point that is excluded most cheaply, of those that a condition wants to be out.
    fn cheapest_exclusion(
        &mut self,
        attempt: &Attempt,
        condition: &[Label],
    ) -> Result<Option<usize>, Want> {
        let mut least = MOST_COST.saturating_add(1);
        let mut cheapest = None;
        for label in condition {
            if attempt.may_exclude(label) {
                if let Some(cost) = self.exclusion_cost(attempt, label.point)? {
                    if cost < least {
                        least = cost;
                        cheapest = Some(label.point);
                    }
                }
            }
        }
        Ok(cheapest)
    }

    /// Sees to it that a condition is met.
    fn repair(&mut self, attempt: &mut Attempt, condition: &[Label]) -> Result<Turn, Want> {
        if let Some(point) = self.cheapest_exclusion(attempt, condition)? {
            attempt.need.insert(point);
            return Ok(Turn::Going);
        }
        let Some(point) = self.includable(attempt, condition) else {
            return Ok(Turn::Stuck);
        };
        let mut inside = attempt.inside;
        inside.insert(point);
        for label in condition {
            if attempt.may_exclude(label) {
                inside.insert(label.point);
            }
        }
        self.restart(attempt, inside)
    }

    /// A point that the condition wants to be in, and that may be.
    fn includable(&self, attempt: &Attempt, condition: &[Label]) -> Option<usize> {
        for label in condition {
            let point = label.point;
            if label.inside && !attempt.row.has(point) && !self.labels.outside.has(point) {
                return Some(point);
            }
        }
        None
    }

    /// One step of an attempt.
    fn turn(&mut self, attempt: &mut Attempt) -> Result<Turn, Want> {
        if let Some(point) = attempt.row.first_of_both(&attempt.need) {
            return self.exclude(attempt, point);
        }
        let condition = match self.labels.unmet(&attempt.row) {
            None => return Ok(Turn::Done),
            Some(condition) => condition.clone()?,
        };
        self.repair(attempt, condition.as_slice())
    }

    /// Clauses whose conjunction meets all conditions, if the class has them.
    pub(crate) fn learned(&mut self) -> Result<Option<Attempt>, Want> {
        let mut attempt = self.attempt(self.labels.inside)?;
        for _turn in 0..TURNS {
            match self.turn(&mut attempt)? {
                Turn::Going => {}
                Turn::Done => return Ok(Some(attempt)),
                Turn::Stuck => return Ok(None),
            }
        }
        Ok(None)
    }
}

impl Attempt {
    /// Whether the label wants a point to be out at which the formula holds, and needn't.
    fn may_exclude(&self, label: &Label) -> bool {
        !label.inside && self.row.has(label.point) && !self.inside.has(label.point)
    }
}
