// Which operations rules compute, found by trial.
use crate::columns::{Rules, Task};
use crate::rows::{agreement, all_points};
use std::alloc::Global;
use sy_seq::Want;

/// On how many combinations of kept terms a rule is tried.
const SAMPLES: usize = 16;

/// What a rule computes, as far as trials tell.
#[derive(Clone, Copy, PartialEq, Eq)]
pub(crate) enum Operation {
    And,
    Or,
    Xor,
    Add,
    Sub,
    Not,
    /// A shift to the right by so many bits.
    Right(u32),
}

/// The operations of two operands.
const OF_TWO: [Operation; 5] = [
    Operation::And,
    Operation::Or,
    Operation::Xor,
    Operation::Add,
    Operation::Sub,
];

impl Operation {
    /// Its value, of no more bits than `greatest` has. Of one operand it looks at the first one alone.
    pub(crate) fn value(self, greatest: u64, first: u64, second: u64) -> u64 {
        match self {
            Operation::And => first & second,
            Operation::Or => first | second,
            Operation::Xor => first ^ second,
            Operation::Add => first.wrapping_add(second) & greatest,
            Operation::Sub => first.wrapping_sub(second) & greatest,
            Operation::Not => first ^ greatest,
            Operation::Right(by) => first.checked_shr(by).unwrap_or(0),
        }
    }

    /// Whether its operands may change places.
    pub(crate) fn commutes(self) -> bool {
        match self {
            Operation::And | Operation::Or | Operation::Xor | Operation::Add => true,
            Operation::Sub | Operation::Not | Operation::Right(_) => false,
        }
    }

    /// Whether twice is no more than once, or nothing, or what another kept term does once.
    pub(crate) fn undoes_itself(self) -> bool {
        match self {
            Operation::Right(_) => false,
            _ => true,
        }
    }

    /// Its values, one for each of these pairs.
    pub(crate) fn values(
        self,
        alloc: Global,
        greatest: u64,
        first: &[u64],
        second: &[u64],
    ) -> Result<Vec<u64>, Want> {
        let mut values = Vec::with_capacity(alloc, first.len())?;
        for (x, y) in first.iter().zip(second) {
            values.push(self.value(greatest, *x, *y))?;
        }
        Ok(values)
    }
}

/// What the shape computes; `None` where that isn't one of these operations.
pub(crate) fn operation_of<R: Rules>(
    alloc: Global,
    rules: &R,
    task: &Task,
    shape: usize,
) -> Result<Option<Operation>, Want> {
    let mut candidates = Vec::new(alloc);
    if let [pool] = task.operands(shape) {
        candidates.push(Operation::Not)?;
        for by in 1..task.greatest(*pool).count_ones() {
            candidates.push(Operation::Right(by))?;
        }
    } else {
        for operation in OF_TWO {
            candidates.push(operation)?;
        }
    }
    for operation in &candidates {
        if computes(alloc, rules, task, shape, *operation)? {
            return Ok(Some(*operation));
        }
    }
    Ok(None)
}

/// Whether the shape has the operation's values over samples of kept terms.
fn computes<R: Rules>(
    alloc: Global,
    rules: &R,
    task: &Task,
    shape: usize,
    operation: Operation,
) -> Result<bool, Want> {
    let (first, second) = match task.operands(shape) {
        [pool] => (*pool, *pool),
        [first, second] => (*first, *second),
        _ => return Ok(false),
    };
    for sample in 0..SAMPLES {
        let x = task.values(first, task.place(first, sample.saturating_mul(613)));
        let y = task.values(second, task.place(second, sample.saturating_mul(1_117)));
        let values = if task.operands(shape).len() == 1 {
            rules.values(alloc, shape, &[x])?
        } else {
            rules.values(alloc, shape, &[x, y])?
        };
        let Some(values) = values else {
            return Ok(false);
        };
        let told = operation.values(alloc, task.greatest(first), x, y)?;
        if agreement(values.as_slice(), told.as_slice()) != all_points(x.len()) {
            return Ok(false);
        }
    }
    Ok(true)
}
