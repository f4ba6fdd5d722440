// Guesses of what refutes candidates.
use std::alloc::Global;
use sy_terms::Want;

/// Guesses of what refutes the next candidate, by what refuted those before it. Nothing is claimed of them: they say
/// only what is looked at first.
#[derive(Drop)]
pub struct Suspects {
    /// The places of stored assignments, in the order in which they are looked at.
    order: Vec<usize>,
    /// For each stored assignment the place of the constraint that was false there last.
    constraints: Vec<usize>,
}

impl Suspects {
    /// None yet. It takes no memory.
    pub fn new(alloc: Global) -> Suspects {
        Suspects {
            order: Vec::new(alloc),
            constraints: Vec::new(alloc),
        }
    }

    /// Has guesses for so many stored assignments: the first constraint for each new one. `Want` comes where memory
    /// runs out, and nowhere else; then there are guesses for some of them.
    pub(crate) fn cover(&mut self, assignments: usize) -> Result<(), Want> {
        for place in self.order.len()..assignments {
            self.order.push(place)?;
            self.constraints.push(0)?;
        }
        Ok(())
    }

    /// How many stored assignments there are guesses for.
    pub(crate) fn len(&self) -> usize {
        self.order.len()
    }

    /// The stored assignment of this rank, the first one past the end.
    pub(crate) fn assignment(&self, rank: usize) -> usize {
        self.order.get(rank).copied().unwrap_or(0)
    }

    /// The constraint that was false last at the stored assignment of this place.
    pub(crate) fn constraint(&self, place: usize) -> usize {
        self.constraints.get(place).copied().unwrap_or(0)
    }

    /// Notes that the stored assignment of this rank refuted a candidate: it comes half of the way to the front.
    pub(crate) fn advance(&mut self, rank: usize) {
        let front = rank / 2;
        if rank < self.order.len() && front < self.order.len() {
            self.order.swap(front, rank);
        }
    }

    /// Notes the constraint that was false at the stored assignment of this place.
    pub(crate) fn note(&mut self, place: usize, constraint: usize) {
        if let Some(last) = self.constraints.get_mut(place) {
            *last = constraint;
        }
    }
}
