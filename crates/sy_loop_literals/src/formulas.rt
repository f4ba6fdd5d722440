// Formulas as clauses of literals.
use std::alloc::Global;
use sy_terms::{Op, Want};

/// How many clauses a formula has at most.
const MOST_CLAUSES: usize = 12;

/// Clauses, all of which hold: each has the bits of its literals. Nothing where there are too many, or a part is no
/// literal.
#[derive(Clone, Copy)]
pub struct Formula {
    clauses: [u128; 12],
    count: usize,
    /// Whether it is one.
    pub fits: bool,
}

/// What says that a term is true, and what says that it is false.
#[derive(Clone, Copy)]
pub struct Both {
    /// What says that it is true.
    pub yes: Formula,
    /// What says that it is false.
    pub no: Formula,
}

impl Formula {
    /// The formula that always has this truth.
    pub fn constant(truth: bool) -> Formula {
        Formula {
            clauses: [0; 12],
            count: if truth { 0 } else { 1 },
            fits: true,
        }
    }

    /// No formula.
    pub fn nothing() -> Formula {
        Formula {
            clauses: [0; 12],
            count: 0,
            fits: false,
        }
    }

    /// The literal alone.
    fn of(literal: Option<usize>) -> Formula {
        let mut formula = Formula::constant(false);
        match literal {
            Some(number) if number < 128 => formula.clauses[0] = 1 << number,
            _ => formula.fits = false,
        }
        formula
    }

    /// Adds the clause.
    fn push(&mut self, clause: u128) {
        if self.count < MOST_CLAUSES {
            self.clauses[self.count] = clause;
            self.count += 1;
        } else {
            self.fits = false;
        }
    }

    /// The clauses.
    pub(crate) fn slice(&self) -> &[u128] {
        &self.clauses[..self.count.min(MOST_CLAUSES)]
    }

    /// Both formulas where the other is one, and else this.
    pub fn and_where_fits(&self, other: &Formula) -> Formula {
        if other.fits {
            self.joined(other, true)
        } else {
            *self
        }
    }

    /// Both formulas, or one of them.
    fn joined(&self, other: &Formula, all: bool) -> Formula {
        let mut formula = Formula::constant(true);
        formula.fits = self.fits && other.fits;
        if all {
            for clause in self.slice() {
                formula.push(*clause);
            }
            for clause in other.slice() {
                formula.push(*clause);
            }
            return formula;
        }
        for first in self.slice() {
            for second in other.slice() {
                formula.push(*first | *second);
            }
        }
        formula
    }
}

impl Both {
    /// The literals of which one says that it is true, and the other that it is false.
    pub fn of(plain: Option<usize>, negation: Option<usize>) -> Both {
        Both {
            yes: Formula::of(plain),
            no: Formula::of(negation),
        }
    }

    /// No formulas.
    pub fn nothing() -> Both {
        Both {
            yes: Formula::nothing(),
            no: Formula::nothing(),
        }
    }

    /// The constant.
    pub fn constant(truth: bool) -> Both {
        Both {
            yes: Formula::constant(truth),
            no: Formula::constant(!truth),
        }
    }

    /// The negation.
    fn negation(&self) -> Both {
        Both {
            yes: self.no,
            no: self.yes,
        }
    }

    /// The conjunction, or the disjunction.
    fn joined(&self, other: &Both, all: bool) -> Both {
        Both {
            yes: self.yes.joined(&other.yes, all),
            no: self.no.joined(&other.no, !all),
        }
    }
}

/// The connective of the last terms.
pub fn connected(operator: &Op, count: u32, stack: &mut Vec<Both>) -> Option<Both> {
    let from = stack.len().saturating_sub(count as usize);
    let all = operator.equals(&Op::And);
    let mut joined = Both::constant(all);
    let mut place = from;
    for both in stack.iter().skip(from) {
        place = place.saturating_add(1);
        let turned = match operator {
            Op::Not => true,
            Op::Implies => place < stack.len(),
            _ => false,
        };
        let next = if turned { both.negation() } else { *both };
        joined = joined.joined(&next, all);
    }
    stack.truncate(from);
    match operator {
        Op::Not | Op::And | Op::Or | Op::Implies => Some(joined),
        _ => None,
    }
}

/// The literals of the bits.
pub(crate) fn clause_of(alloc: Global, bits: u128) -> Result<Vec<usize>, Want> {
    let mut clause = Vec::new(alloc);
    for number in 0..128usize {
        if bits & (1 << number) != 0 {
            clause.push(number)?;
        }
    }
    Ok(clause)
}
