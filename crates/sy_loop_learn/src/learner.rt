// What is learned from, and formulas.
ghost use Rattle.std.specs.Prelude.{◌≡◌, IfOk, IfSome, length, true};
ghost use Rattle.sy_loop_learn.specs.Formulas as spec;

use crate::class::Class;
use crate::clause::{Clause, clause_of, has_clause, in_order, refresh};
use crate::formula::{is_below, meets_all};
use crate::labels::{Label, Labels};
use crate::literal::{Literal, Traits};
use crate::row::{POINTS, Row};
use crate::score::Priced;
use std::alloc::Global;
use sy_seq::Want;

/// How many literals there may be.
const LITERALS: usize = 8_000;
/// How many clauses of the problem there may be.
const GIVEN: usize = 400;
/// How many of the cheapest literals are taken for clauses of two.
const CHEAPEST: usize = 400;
/// How many formulas of the narrow class are answered.
const NARROW: usize = 80;
/// What a formula that fails adds to the cost of a literal.
const BUMP: u32 = 7;

/// Points with conditions on their labels, and literals by whose truth at these points formulas are learned.
#[derive(Drop)]
pub struct Learner {
    pub(crate) alloc: Global,
    /// Whether clauses of several literals are used.
    pub(crate) joins: bool,
    points: usize,
    /// All points.
    pub(crate) all: Row,
    pub(crate) literals: Vec<Literal>,
    pub(crate) labels: Labels,
    /// Clauses of the problem.
    pub(crate) given: Vec<Clause>,
    /// Clauses of earlier formulas.
    pub(crate) kept: Vec<Clause>,
    /// The cheapest literals, by ascending cost.
    pub(crate) cheapest: Vec<usize>,
    pub(crate) class: Class,
    pub(crate) shrinking: bool,
    /// Whether a clause's cost counts for each point that it excludes.
    pub(crate) steep: bool,
    /// How many formulas were answered.
    answered: usize,
}

impl Learner {
    /// Nothing to learn from. Clauses of several literals are used where `joins`.
    pub fn new(alloc: Global, joins: bool) -> Learner {
        Learner {
            alloc,
            joins,
            points: 0,
            all: Row::empty(),
            literals: Vec::new(alloc),
            labels: Labels::new(alloc),
            given: Vec::new(alloc),
            kept: Vec::new(alloc),
            cheapest: Vec::new(alloc),
            class: Class::Narrow,
            shrinking: false,
            steep: false,
            answered: 0,
        }
    }

    /// How many points there are.
    pub fn points(&self) -> usize
        ensures { result ≡ self.now.points }
    {
        self.points
    }

    /// How many literals there are.
    pub fn literals(&self) -> usize
        ensures { result ≡ length self.now.literals.items }
    {
        self.literals.len()
    }

    /// One point more, with the truth of each literal there. A literal whose truth is lacking isn't used any more.
    /// Beyond 1,024 points the call does nothing.
    pub fn add_point(&mut self, truths: &[bool]) {
        if self.points >= POINTS {
            return;
        }
        let point = self.points;
        self.points = point.saturating_add(1);
        self.all.insert(point);
        for (number, literal) in self.literals.iter_mut().enumerate() {
            match truths.get(number) {
                None => literal.known = false,
                Some(truth) => {
                    if *truth {
                        literal.row.insert(point);
                    }
                }
            }
        }
    }

    /// One literal more, with its truth at each point. Beyond 8,000 literals the call does nothing.
    pub fn add_literal(&mut self, traits: Traits, truths: &[bool]) -> Result<(), Want> {
        if self.literals.len() >= LITERALS {
            return Ok(());
        }
        let mut row = Row::empty();
        for (point, truth) in truths.iter().enumerate() {
            if *truth {
                row.insert(point);
            }
        }
        row.keep(&self.all);
        let known = truths.len() >= self.points;
        self.literals.push(Literal {
            traits,
            bump: 0,
            known,
            row,
        })?;
        Ok(())
    }

    /// Says that the literal stands in the problem.
    pub fn mark_program(&mut self, literal: usize) {
        if let Some(literal) = self.literals.get_mut(literal) {
            literal.traits.program = true;
        }
    }

    /// Says that the literal is an equality that holds wherever the formula has to.
    pub fn mark_hull(&mut self, literal: usize) {
        if let Some(literal) = self.literals.get_mut(literal) {
            literal.traits.hull = true;
        }
    }

    /// A clause that stands in the problem, of two to four literals. Beyond 400 clauses the call does nothing.
    pub fn add_clause(&mut self, literals: &[usize]) -> Result<(), Want> {
        let numbers = in_order(self.alloc, literals)?;
        let count = numbers.len();
        if count < 2 || count > 4 || self.given.len() >= GIVEN {
            return Ok(());
        }
        for number in &numbers {
            if *number >= self.literals.len() {
                return Ok(());
            }
        }
        if !has_clause(self.given.as_slice(), numbers.as_slice()) {
            self.given
                .push(clause_of(self.literals.as_slice(), numbers))?;
        }
        Ok(())
    }

    /// One condition more: one of the labels holds in every solution. Whether it is new. All labels that the conditions
    /// force one at a time are taken. A condition on an unknown point is none.
    pub fn add_condition(&mut self, labels: &[Label]) -> Result<bool, Want> {
        for label in labels {
            if label.point >= self.points {
                return Ok(false);
            }
        }
        self.labels.add(labels)
    }

    /// Whether some point has to be in and out.
    pub fn contradicts(&self) -> bool {
        self.labels.contradictory
    }

    /// The label that the point has in every solution, if it is known.
    pub fn label(&self, point: usize) -> Option<bool> {
        self.labels.label(point)
    }

    /// The literals by ascending cost, as many as clauses of two are made of.
    fn by_cost(&self) -> Result<Vec<usize>, Want> {
        let mut prices = Vec::new(self.alloc);
        for (number, literal) in self.literals.iter().enumerate() {
            if literal.known {
                let cost = literal.cost(self.shrinking);
                prices.push(Priced { cost, number })?;
            }
        }
        prices.sort()?;
        prices.truncate(CHEAPEST);
        prices.iter().map(|price| price.number).collect(self.alloc)
    }

    /// Makes ready what a formula is made of.
    fn prepare(&mut self) -> Result<(), Want> {
        refresh(&mut self.given, self.literals.as_slice());
        refresh(&mut self.kept, self.literals.as_slice());
        if self.joins && self.class.has_pairs() {
            self.cheapest = self.by_cost()?;
        }
        Ok(())
    }

    /// Clauses of literals whose conjunction meets all conditions; `None` where the class has none.
    pub fn next_formula(&mut self) -> Result<Option<Vec<Vec<usize>>>, Want>
        ensures below { IfOk result (λ found. IfSome found (λ formula.
            spec.IsBelow (length self.new.literals.items) formula.items)) }
        ensures met { IfOk result (λ found. IfSome found (λ formula.
            spec.meets_all self.new.literals.items self.new.labels.conditions.items formula.items ≡ true)) }
    {
        let is_over = self.class == Class::Narrow && self.answered >= NARROW;
        if is_over || self.contradicts() {
            return Ok(None);
        }
        self.prepare()?;
        let Some(attempt) = self.learned()? else {
            return Ok(None);
        };
        let formula = self.shortened(attempt.clauses.as_slice())?;
        if !is_below(formula.as_slice(), self.literals.len()) {
            return Ok(None);
        }
        if !meets_all(
            self.literals.as_slice(),
            formula.as_slice(),
            self.labels.conditions.as_slice(),
        ) {
            return Ok(None);
        }
        self.answered = self.answered.saturating_add(1);
        Ok(Some(formula))
    }

    /// The class after this one, if there is one.
    fn next_class(&self) -> Option<Class> {
        match self.class {
            Class::Narrow => Some(Class::Pairs),
            Class::Singles if self.joins => Some(Class::Pairs),
            Class::Pairs if self.joins && !self.shrinking => Some(Class::Triples),
            _ => None,
        }
    }

    /// Goes on to the next class; `false` where there is none. In shrinking two classes come, each at first by cost for
    /// the square root of the number of excluded points, and then by cost for each.
    pub fn widen(&mut self) -> bool {
        if self.shrinking && !self.steep {
            self.steep = true;
            return true;
        }
        let Some(class) = self.next_class() else {
            return false;
        };
        self.class = class;
        self.steep = false;
        true
    }

    /// The class that formulas come from.
    pub fn class(&self) -> Class {
        self.class
    }

    /// Says that a formula failed, and at which points its clauses should have held: literals of those that don't
    /// become dearer.
    pub fn refuted(&mut self, formula: &[Vec<usize>], points: &[usize]) {
        for clause in formula {
            if self.fails(clause.as_slice(), points) {
                self.bump(clause.as_slice(), BUMP);
            }
        }
    }

    /// Says that nothing is known of the formula, so that another one is wanted: all its literals become dearer.
    pub fn set_aside(&mut self, formula: &[Vec<usize>]) {
        for clause in formula {
            for number in clause {
                if let Some(literal) = self.literals.get_mut(*number) {
                    literal.bump = literal.bump.saturating_add(BUMP);
                }
            }
        }
    }

    /// Forgets what formulas that failed have changed.
    pub fn begin_anew(&mut self) {
        for literal in self.literals.iter_mut() {
            literal.bump = 0;
        }
        self.kept = Vec::new(self.alloc);
        self.class = Class::Pairs;
    }

    /// Whether formulas are to be short: costs are sizes then, and the classes begin with single literals.
    pub fn shrink(&mut self, on: bool) {
        self.shrinking = on;
        self.steep = false;
        self.class = if on { Class::Singles } else { Class::Pairs };
    }

    /// How large the formula is, with a word for each `and` and `or`.
    pub fn size_of(&self, formula: &[Vec<usize>]) -> u64 {
        let mut size: u64 = 0;
        for clause in formula {
            for number in clause {
                if let Some(literal) = self.literals.get(*number) {
                    size = size.saturating_add(u64::from(literal.traits.size));
                    size = size.saturating_add(1);
                }
            }
        }
        size.saturating_sub(1)
    }
}
