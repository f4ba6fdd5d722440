// Literals: what they cost, and where they hold. Costs are in tenths.
use crate::row::Row;

/// What the cost of a literal is made of.
#[derive(Clone, Copy)]
pub struct Traits {
    /// The size of its term.
    pub size: u32,
    /// Whether it stands in the problem.
    pub program: bool,
    /// Whether it is an equality that holds wherever the formula has to.
    pub hull: bool,
    /// Whether it is the negation of an equality.
    pub unequal: bool,
}

/// A literal with the points at which it holds.
#[derive(Clone, Copy)]
pub(crate) struct Literal {
    pub(crate) traits: Traits,
    /// What formulas that failed have added to its cost.
    pub(crate) bump: u32,
    /// Whether its truth is known at each point.
    pub(crate) known: bool,
    pub(crate) row: Row,
}

/// What a disjunction adds to the cost of its parts.
pub(crate) const JOIN: u32 = 30;
/// What a disjunction adds of which no part stands in the problem.
const NO_CASE: u32 = 40;
/// How many points each part of a disjunction should leave to the other.
const FEW: u32 = 8;
/// The greatest size that counts.
const MOST_SIZE: u32 = 100_000;

impl Literal {
    /// The cost; in shrinking it is hardly more than the size.
    pub(crate) fn cost(&self, shrinking: bool) -> u32 {
        let size = self.traits.size.min(MOST_SIZE).saturating_add(1);
        let mut cost = size.saturating_mul(10);
        if shrinking {
            return if self.traits.unequal {
                cost.saturating_add(20)
            } else {
                cost
            };
        }
        if self.traits.program {
            cost = cost.saturating_sub(20);
        }
        if self.traits.hull {
            cost = cost.min(40);
        }
        if self.traits.unequal && !self.traits.program {
            cost = cost.saturating_add(60);
        }
        cost.saturating_add(self.bump)
    }

    /// The cost of the disjunction with another one, where the formula has to hold at these points.
    pub(crate) fn cost_with(&self, other: &Literal, shrinking: bool, inside: &Row) -> u32 {
        let parts = self.cost(shrinking).saturating_add(other.cost(shrinking));
        let mut cost = parts.saturating_add(JOIN);
        if !self.traits.program && !other.traits.program {
            cost = cost.saturating_add(NO_CASE);
        }
        let left = inside.count_beyond(&self.row);
        let lacking = FEW.saturating_sub(left.min(inside.count_beyond(&other.row)));
        cost.saturating_add(lacking.saturating_mul(5))
    }
}
