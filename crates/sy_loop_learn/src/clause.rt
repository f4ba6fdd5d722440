// Clauses.
use crate::literal::{JOIN, Literal};
use crate::row::Row;
use std::alloc::Global;
use sy_seq::Want;

/// A disjunction of literals with the points at which it holds.
#[derive(Drop)]
pub(crate) struct Clause {
    pub(crate) literals: Vec<usize>,
    pub(crate) row: Row,
}

/// The points at which one of these literals holds.
pub(crate) fn joined(literals: &[Literal], clause: &[usize]) -> Row {
    let mut row = Row::empty();
    for number in clause {
        if let Some(literal) = literals.get(*number) {
            row.add(&literal.row);
        }
    }
    row
}

/// The clause of these literals.
pub(crate) fn clause_of(literals: &[Literal], numbers: Vec<usize>) -> Clause {
    let row = joined(literals, numbers.as_slice());
    Clause {
        literals: numbers,
        row,
    }
}

/// What the clause of these literals costs.
pub(crate) fn clause_cost(literals: &[Literal], clause: &[usize], shrinking: bool) -> u32 {
    let mut cost: u32 = 0;
    for number in clause {
        if let Some(literal) = literals.get(*number) {
            cost = cost.saturating_add(literal.cost(shrinking));
            cost = cost.saturating_add(JOIN);
        }
    }
    cost.saturating_sub(JOIN)
}

/// Takes the literals' rows as they are now.
pub(crate) fn refresh(clauses: &mut Vec<Clause>, literals: &[Literal]) {
    for clause in clauses.iter_mut() {
        clause.row = joined(literals, clause.literals.as_slice());
    }
}

/// Whether one of the clauses has these literals.
pub(crate) fn has_clause(clauses: &[Clause], literals: &[usize]) -> bool {
    for clause in clauses {
        if clause.literals.as_slice() == literals {
            return true;
        }
    }
    false
}

/// The numbers in order, each once.
pub(crate) fn in_order(alloc: Global, literals: &[usize]) -> Result<Vec<usize>, Want> {
    let mut numbers = Vec::new(alloc);
    for literal in literals {
        if !numbers.contains(literal) {
            numbers.push(*literal)?;
        }
    }
    numbers.sort()?;
    Ok(numbers)
}
