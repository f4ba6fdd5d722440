// The problem's own clauses and formulas.
use crate::formulas::{Formula, clause_of};
use crate::table::Literal;
use std::alloc::Global;
use sy_terms::Want;

/// How many clauses and how many formulas of the problem are kept at most.
const MOST_KEPT: usize = 400;

const MOST_GOALS: usize = 12;

/// The problem's own clauses, and formulas to begin with.
#[derive(Drop)]
pub struct Given {
    /// Clauses of two to four literals.
    pub clauses: Vec<Vec<usize>>,
    /// Formulas, as clauses of literals.
    pub goals: Vec<Vec<Vec<usize>>>,
    alloc: Global,
}

impl Given {
    /// Nothing.
    pub fn new(alloc: Global) -> Given {
        Given {
            clauses: Vec::new(alloc),
            goals: Vec::new(alloc),
            alloc,
        }
    }

    /// Keeps the formula's clauses of two to four literals.
    pub fn keep_clauses(&mut self, formula: &Formula) -> Result<(), Want> {
        if !formula.fits {
            return Ok(());
        }
        for bits in formula.slice() {
            let count = bits.count_ones();
            if count >= 2 && count <= 4 && self.clauses.len() < MOST_KEPT {
                let clause = clause_of(self.alloc, *bits)?;
                if !self.clauses.contains(&clause) {
                    self.clauses.push(clause)?;
                }
            }
        }
        Ok(())
    }

    /// Keeps the formula as one to begin with where it says something and there are few: without the literals of
    /// clauses that another clause makes needless, which has the contrary, and nothing else that isn't in the clause.
    pub fn keep_goal(&mut self, literals: &[Literal], formula: &Formula) -> Result<(), Want> {
        let says = !formula.slice().is_empty() && !formula.slice().contains(&0);
        if !formula.fits || !says || self.goals.len() >= MOST_GOALS {
            return Ok(());
        }
        let mut goal: Vec<Vec<usize>> = Vec::new(self.alloc);
        for bits in formula.slice() {
            let short = shortened(literals, *bits, formula);
            let clause = clause_of(self.alloc, short)?;
            goal.push(clause)?;
        }
        if !self.goals.contains(&goal) {
            self.goals.push(goal)?;
        }
        Ok(())
    }
}

/// The clause without the literals that others make needless.
fn shortened(literals: &[Literal], clause: u128, formula: &Formula) -> u128 {
    let mut short = clause;
    for number in 0..128usize {
        let bit = 1u128 << number;
        if short & bit != 0 && is_needless(bit, contrary_bit(literals, number), short, formula) {
            short &= !bit;
        }
    }
    short
}

/// Whether one of the formula's clauses has the contrary, and nothing else that isn't in the clause besides the bit.
fn is_needless(bit: u128, contrary: u128, clause: u128, formula: &Formula) -> bool {
    let rest = contrary | (clause & !bit);
    for other in formula.slice() {
        if other & contrary != 0 && other & !rest == 0 {
            return true;
        }
    }
    false
}

/// The bit of the literal that says the contrary; none where there is no such literal.
fn contrary_bit(literals: &[Literal], number: usize) -> u128 {
    match literals.get(number) {
        Some(
            Literal {
                contrary: Some(contrary),
                ..
            },
        ) if *contrary < 128 => 1 << *contrary,
        _ => 0,
    }
}
