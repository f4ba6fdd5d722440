// The numbers of clauses once only the needed lines are left.
ghost use Rattle.std.specs.Prelude.{◌≡◌, ◌≤◌, ℕ, slice_index_or, IfOk};
ghost use Rattle.sy_clauses.specs.Needed.{needs};
ghost use Rattle.sy_clauses.specs.Numbers.{line_renumbered, number_in, CountsLeft};

use crate::{Line, Step};
use std::alloc::{AllocError, Global};
use sy_seq::{Seq, Want};

/// The numbers that clauses have once only some lines are left.
#[derive(Drop)]
pub(crate) struct Numbering {
    /// How many clauses the formula has. They keep their numbers.
    formula: usize,
    /// How many lines are left before each.
    before: Vec<usize>,
    /// How many are left.
    all: usize,
}

impl Numbering {
    /// The numbers once only the needed lines are left.
    pub(crate) fn new(alloc: Global, formula: usize, needed: &[bool]) -> Result<Self, Want>
        ensures { IfOk result (λ numbering. CountsLeft formula (needs needed.now) numbering) }
    {
        let mut before = Vec::new(alloc);
        let mut all = 0;
        for is_needed in needed {
            before.push(all)?;
            if *is_needed {
                all += 1;
            }
        }
        Ok(Numbering {
            formula,
            before,
            all,
        })
    }

    /// The clause's new number.
    fn number(&self, number: u32) -> u32
        requires { (place : ℕ) → slice_index_or self.now.before.items place self.now.all ≤ place }
        ensures { result ≡ number_in self.now number }
    {
        let number = number as usize;
        if number < self.formula {
            return number as u32;
        }
        let before = match self.before.get(number - self.formula) {
            Some(before) => *before,
            None => self.all,
        };
        (self.formula + before) as u32
    }

    /// The line with the new numbers.
    pub(crate) fn renumbered(&self, alloc: Global, line: &Line) -> Result<Line, Want>
        requires { (place : ℕ) → slice_index_or self.now.before.items place self.now.all ≤ place }
        ensures { IfOk result (λ new. new ≡ line_renumbered (number_in self.now) line.now) }
    {
        let mut steps = Seq::new(alloc);
        for step in line.steps.as_slice() {
            let with = self.number(step.with);
            steps.push(Step {
                var: step.var,
                with,
            })?;
        }
        let first = self.number(line.first);
        Ok(Line { first, steps })
    }
}
