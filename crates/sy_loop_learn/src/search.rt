// The search for a clause.
use crate::Learner;
use crate::class::Class;
use crate::clause::{Clause, clause_cost, clause_of, has_clause, in_order};
use crate::literal::{JOIN, Literal};
use crate::row::Row;
use crate::score::Score;
use sy_seq::Want;

/// How many of the cheapest literals are taken for clauses of three.
const TRIPLES: usize = 80;
/// What a clause of the problem is cheaper by.
const GIVEN_BONUS: u32 = 30;
/// What a clause of an earlier formula is cheaper by.
const KEPT_BONUS: u32 = 10;
/// The least that a second literal costs.
const LEAST: u32 = 20;
/// How many clauses are kept.
const KEPT: usize = 2_000;

/// What a clause is looked for.
#[derive(Clone, Copy)]
pub(crate) struct Target {
    /// The point that it has to exclude.
    pub(crate) point: usize,
    /// The points that it should exclude.
    pub(crate) need: Row,
    /// The points at which it has to hold.
    pub(crate) inside: Row,
}

/// Where a clause comes from.
#[derive(Clone, Copy)]
enum Source {
    Single(usize),
    Given(usize),
    Kept(usize),
    Pair(usize, usize),
    Triple(usize, usize, usize),
}

impl Source {
    /// Whether it is one literal.
    fn is_single(&self) -> bool {
        matches!(self, Source::Single(_))
    }

    /// Whether the clause stands neither in the problem nor in an earlier formula.
    fn is_made(&self) -> bool {
        matches!(self, Source::Pair(_, _) | Source::Triple(_, _, _))
    }
}

/// A clause and how good it is.
#[derive(Clone, Copy)]
struct Found {
    source: Source,
    score: Score,
}

/// Two literals of a clause, with the points that they leave to a third one.
#[derive(Clone, Copy)]
struct Opened {
    first: usize,
    second: usize,
    cost: u32,
    /// The points at which the third one has to hold.
    rest: Row,
    /// The points that it should exclude.
    need: Row,
}

impl Target {
    /// How many of the points that should be excluded are in neither row.
    fn excluded(&self, row: &Row, other: &Row) -> u32 {
        let mut need = self.need;
        need.remove(row);
        need.count_beyond(other)
    }
}

impl Learner {
    /// The better one of both.
    fn better(&self, best: Option<Found>, found: Found) -> Option<Found> {
        match best {
            Some(least) if !found.score.is_better(&least.score, self.steep) => Some(least),
            _ => Some(found),
        }
    }

    /// The best of these literals, which hold wherever they have to.
    fn best_single(&self, target: &Target, candidates: &[usize]) -> Option<Found> {
        let mut best = None;
        for number in candidates {
            if let Some(literal) = self.literals.get(*number) {
                if !literal.row.has(target.point) {
                    let score = Score {
                        cost: literal.cost(self.shrinking),
                        excluded: target.need.count_beyond(&literal.row),
                    };
                    let source = Source::Single(*number);
                    best = self.better(best, Found { source, score });
                }
            }
        }
        best
    }

    /// The two literals, if there are two.
    fn pair(&self, numbers: &[usize]) -> Option<(&Literal, &Literal)> {
        if numbers.len() != 2 {
            return None;
        }
        let first = self.literals.get(*numbers.get(0)?)?;
        let second = self.literals.get(*numbers.get(1)?)?;
        Some((first, second))
    }

    /// What a clause of the problem or of an earlier formula costs.
    fn kept_cost(&self, clause: &Clause, inside: &Row, bonus: u32) -> u32 {
        let numbers = clause.literals.as_slice();
        let cost = match (self.pair(numbers), self.shrinking) {
            (Some((first, second)), false) => first.cost_with(second, false, inside),
            _ => clause_cost(self.literals.as_slice(), numbers, self.shrinking),
        };
        cost.saturating_sub(bonus)
    }

    /// The clause, where it serves.
    fn serving(&self, target: &Target, clause: &Clause, bonus: u32) -> Option<Score> {
        if clause.row.has(target.point) || !target.inside.is_within(&clause.row) {
            return None;
        }
        Some(Score {
            cost: self.kept_cost(clause, &target.inside, bonus),
            excluded: target.need.count_beyond(&clause.row),
        })
    }

    /// The best of the given one and the clauses of the problem and of earlier formulas.
    fn best_kept(&self, target: &Target, before: Option<Found>) -> Option<Found> {
        let mut best = before;
        for (number, clause) in self.given.iter().enumerate() {
            if let Some(score) = self.serving(target, clause, GIVEN_BONUS) {
                let source = Source::Given(number);
                best = self.better(best, Found { source, score });
            }
        }
        if self.class.has_pairs() {
            for (number, clause) in self.kept.iter().enumerate() {
                if let Some(score) = self.serving(target, clause, KEPT_BONUS) {
                    let source = Source::Kept(number);
                    best = self.better(best, Found { source, score });
                }
            }
        }
        best
    }

    /// The cheapest literals that exclude the point and hold somewhere where the clause has to.
    fn cheap(&self, target: &Target) -> Result<Vec<usize>, Want> {
        let mut cheap = Vec::new(self.alloc);
        for number in &self.cheapest {
            if let Some(literal) = self.literals.get(*number) {
                if !literal.row.has(target.point) && literal.row.meets(&target.inside) {
                    cheap.push(*number)?;
                }
            }
        }
        Ok(cheap)
    }

    /// The best of the given one and the clauses of the first literal and one of the others.
    fn best_pair(
        &self,
        target: &Target,
        first: usize,
        others: &[usize],
        before: Option<Found>,
    ) -> Option<Found> {
        let Some(a) = self.literals.get(first) else {
            return before;
        };
        let mut rest = target.inside;
        rest.remove(&a.row);
        let mut best = before;
        for number in others {
            if let Some(b) = self.literals.get(*number) {
                if *number != first && rest.is_within(&b.row) {
                    let score = Score {
                        cost: a.cost_with(b, self.shrinking, &target.inside),
                        excluded: target.excluded(&a.row, &b.row),
                    };
                    let source = Source::Pair(first, *number);
                    best = self.better(best, Found { source, score });
                }
            }
        }
        best
    }

    /// Whether no clause with the literal can be better than this one, whatever follows.
    fn is_too_dear(&self, target: &Target, literal: &Literal, best: Option<Found>) -> bool {
        let Some(best) = best else {
            return false;
        };
        let cost = literal.cost(self.shrinking).saturating_add(JOIN);
        let least = Score {
            cost: cost.saturating_add(LEAST),
            excluded: target.need.count_beyond(&Row::empty()),
        };
        !least.is_better(&best.score, self.steep)
    }

    /// The best of the given one and the clauses of two, one of which stands in the problem.
    fn best_case(&self, target: &Target, cheap: &[usize], before: Option<Found>) -> Option<Found> {
        let mut best = before;
        for number in cheap {
            if let Some(literal) = self.literals.get(*number) {
                if literal.traits.program && !self.is_too_dear(target, literal, best) {
                    best = self.best_pair(target, *number, cheap, best);
                }
            }
        }
        best
    }

    /// The best clause of two.
    fn best_of_two(&self, target: &Target, cheap: &[usize]) -> Option<Found> {
        let mut best = None;
        for place in 0..cheap.len() {
            best = self.best_pair(target, cheap[place], &cheap[place..], best);
        }
        best
    }

    /// The best of the given one and the clauses of these two and one of the others.
    fn best_third(
        &self,
        opened: &Opened,
        others: &[usize],
        before: Option<Found>,
    ) -> Option<Found> {
        let mut best = before;
        for number in others {
            if let Some(literal) = self.literals.get(*number) {
                if *number != opened.second && opened.rest.is_within(&literal.row) {
                    let cost = literal.cost(self.shrinking).saturating_add(opened.cost);
                    let excluded = opened.need.count_beyond(&literal.row);
                    let source = Source::Triple(opened.first, opened.second, *number);
                    let score = Score { cost, excluded };
                    best = self.better(best, Found { source, score });
                }
            }
        }
        best
    }

    /// What two literals leave to a third one.
    fn opened(&self, target: &Target, first: usize, second: usize) -> Option<Opened> {
        let a = self.literals.get(first)?;
        let b = self.literals.get(second)?;
        let parts = a
            .cost(self.shrinking)
            .saturating_add(b.cost(self.shrinking));
        let mut opened = Opened {
            first,
            second,
            cost: parts.saturating_add(2 * JOIN),
            rest: target.inside,
            need: target.need,
        };
        opened.rest.remove(&a.row);
        opened.rest.remove(&b.row);
        opened.need.remove(&a.row);
        opened.need.remove(&b.row);
        Some(opened)
    }

    /// The best of the given one and the clauses of the first literal and two of the others.
    fn best_triple(
        &self,
        target: &Target,
        first: usize,
        others: &[usize],
        before: Option<Found>,
    ) -> Option<Found> {
        let mut best = before;
        for place in 0..others.len() {
            if others[place] != first {
                if let Some(opened) = self.opened(target, first, others[place]) {
                    best = self.best_third(&opened, &others[place..], best);
                }
            }
        }
        best
    }

    /// The best clause of three.
    fn best_of_three(&self, target: &Target, cheap: &[usize]) -> Option<Found> {
        let mut best = None;
        for place in 0..cheap.len() {
            best = self.best_triple(target, cheap[place], &cheap[place..], best);
        }
        best
    }

    /// The best of the given one and the clauses that can be made; those that are dear only where nothing else serves.
    fn best_made(&self, target: &Target, before: Option<Found>) -> Result<Option<Found>, Want> {
        let mut cheap = self.cheap(target)?;
        let mut best = self.best_case(target, cheap.as_slice(), before);
        if best.is_none() {
            best = self.best_of_two(target, cheap.as_slice());
        }
        if best.is_none() && self.class == Class::Triples {
            cheap.truncate(TRIPLES);
            best = self.best_of_three(target, cheap.as_slice());
        }
        Ok(best)
    }

    /// The best clause of the class.
    fn best(&self, target: &Target, candidates: &[usize]) -> Result<Option<Found>, Want> {
        let single = self.best_single(target, candidates);
        if !self.joins {
            return Ok(single);
        }
        let best = self.best_kept(target, single);
        match best {
            Some(found) if !found.source.is_single() => Ok(best),
            _ if self.class.has_pairs() => self.best_made(target, best),
            _ => Ok(best),
        }
    }

    /// The literals of a clause.
    fn numbers(&self, source: Source) -> Result<Vec<usize>, Want> {
        match source {
            Source::Single(number) => Ok(Vec::from_array(self.alloc, [number])?),
            Source::Pair(first, second) => Ok(Vec::from_array(self.alloc, [first, second])?),
            Source::Triple(first, second, third) => Ok(Vec::from_array(
                self.alloc,
                [first, second, third],
            )?),
            Source::Given(number) => self.copy_of(self.given.get(number)),
            Source::Kept(number) => self.copy_of(self.kept.get(number)),
        }
    }

    /// The literals of this clause.
    fn copy_of(&self, clause: Option<&Clause>) -> Result<Vec<usize>, Want> {
        match clause {
            Some(clause) => clause.literals.clone(),
            None => Ok(Vec::new(self.alloc)),
        }
    }

    /// The best clause of the class. One that is made is kept for later formulas.
    pub(crate) fn best_clause(
        &mut self,
        target: &Target,
        candidates: &[usize],
    ) -> Result<Option<Clause>, Want> {
        let Some(found) = self.best(target, candidates)? else {
            return Ok(None);
        };
        let numbers = self.numbers(found.source)?;
        if found.source.is_made() {
            self.keep(numbers.as_slice())?;
        }
        Ok(Some(clause_of(self.literals.as_slice(), numbers)))
    }

    /// Keeps a clause for later formulas, as long as there is room.
    fn keep(&mut self, literals: &[usize]) -> Result<(), Want> {
        let numbers = in_order(self.alloc, literals)?;
        if self.kept.len() < KEPT && !has_clause(self.kept.as_slice(), numbers.as_slice()) {
            self.kept
                .push(clause_of(self.literals.as_slice(), numbers))?;
        }
        Ok(())
    }
}
