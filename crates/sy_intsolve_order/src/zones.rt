// Bounds on differences of variables that facts give.
use std::alloc::Global;
use sy_linear_known::{Fact, Form};
use sy_seq::Want;

/// The most variables of which bounds are kept.
const MOST: usize = 64;

/// That the number of one place is at most so much above that of another. Place 0 stands for the number 0, and the
/// others for the variables.
#[derive(Clone, Copy)]
struct Edge {
    above: usize,
    below: usize,
    limit: i128,
}

/// The place of a variable.
fn place_of(variable: u32) -> usize {
    (variable as usize).saturating_add(1)
}

/// The edge from the place of a variable with the positive coefficient to that of one with its opposite.
fn bounded(coefficient: i128, constant: i128, above: usize, below: usize) -> Option<Edge> {
    let limit = constant.checked_div_euclid(coefficient)?;
    Some(Edge {
        above,
        below,
        limit,
    })
}

/// What the form says by being at least 0, where that is a bound on a variable or on a difference of two.
fn edge_of(form: &Form) -> Option<Edge> {
    match form.coefs.as_slice() {
        [(variable, factor)] => {
            if *factor > 0 {
                bounded(*factor, form.constant, 0, place_of(*variable))
            } else {
                bounded(factor.checked_neg()?, form.constant, place_of(*variable), 0)
            }
        }
        [(first, factor), (second, other)] if factor.checked_add(*other) == Some(0) => {
            if *factor > 0 {
                bounded(*factor, form.constant, place_of(*second), place_of(*first))
            } else {
                bounded(*other, form.constant, place_of(*first), place_of(*second))
            }
        }
        _ => None,
    }
}

/// Upper bounds on differences, closed under sums.
#[derive(Drop)]
pub(crate) struct Zones {
    /// How many places there are.
    side: usize,
    /// The bound of each pair of places, row by row.
    limits: Vec<Option<i128>>,
}

impl Zones {
    /// No places. It takes no memory.
    pub(crate) fn new(alloc: Global) -> Zones {
        Zones {
            side: 0,
            limits: Vec::new(alloc),
        }
    }

    /// Makes places for so many variables, without bounds; none where there are too many.
    fn clear(&mut self, variables: usize) -> Result<(), Want> {
        self.side = if variables < MOST {
            variables.saturating_add(1)
        } else {
            0
        };
        self.limits.clear();
        self.limits
            .resize(self.side.saturating_mul(self.side), None)?;
        Ok(())
    }

    /// The place of a pair in the list.
    fn index(&self, above: usize, below: usize) -> usize {
        above.saturating_mul(self.side).saturating_add(below)
    }

    /// How much the number of the first place is above that of the second at most, where that is known.
    fn limit(&self, above: usize, below: usize) -> Option<i128> {
        if above == below {
            return Some(0);
        }
        *self.limits.get(self.index(above, below))?
    }

    /// Lowers the bound of the pair, where this one is less.
    fn lower(&mut self, above: usize, below: usize, limit: i128) {
        let index = self.index(above, below);
        if let Some(known) = self.limits.get_mut(index) {
            *known = match *known {
                Some(old) if old < limit => Some(old),
                _ => Some(limit),
            };
        }
    }

    /// Adds the bound, with all that follows from it and the others.
    fn add(&mut self, edge: Edge) {
        for above in 0..self.side {
            let Some(before) = self.limit(above, edge.above) else {
                continue;
            };
            let Some(sum) = before.checked_add(edge.limit) else {
                continue;
            };
            for below in 0..self.side {
                if let Some(after) = self.limit(edge.below, below)
                    && let Some(total) = sum.checked_add(after)
                {
                    self.lower(above, below, total);
                }
            }
        }
    }

    /// Takes the bounds that the facts give on so many variables, and all that follows from them.
    pub(crate) fn take(&mut self, variables: usize, facts: &[Fact]) -> Result<(), Want> {
        self.clear(variables)?;
        for fact in facts {
            if let Fact::AtLeast(form) = fact
                && let Some(edge) = edge_of(form)
            {
                self.add(edge);
            }
        }
        Ok(())
    }

    /// Whether the bound holds, where the others tell.
    fn holds(&self, edge: Edge) -> Option<bool> {
        if let Some(limit) = self.limit(edge.above, edge.below)
            && limit <= edge.limit
        {
            return Some(true);
        }
        let opposite = self.limit(edge.below, edge.above)?;
        if opposite.checked_add(edge.limit)? < 0 {
            Some(false)
        } else {
            None
        }
    }

    /// The least value of so many times the form, where bounds on its variables give one.
    fn least(&self, factor: i128, form: &Form) -> Option<i128> {
        let mut sum = factor.checked_mul(form.constant)?;
        for coefficient in form.coefs.as_slice() {
            let number = factor.checked_mul(coefficient.1)?;
            let place = place_of(coefficient.0);
            let part = if number > 0 {
                self.limit(0, place)?.checked_neg()?
            } else {
                self.limit(place, 0)?
            };
            sum = sum.checked_add(number.checked_mul(part)?)?;
        }
        Some(sum)
    }

    /// Whether the form is at least 0, where the bounds tell.
    pub(crate) fn told(&self, form: &Form) -> Option<bool> {
        if let Some(edge) = edge_of(form) {
            return self.holds(edge);
        }
        if matches!(self.least(1, form), Some(number) if number >= 0) {
            return Some(true);
        }
        if matches!(self.least(-1, form), Some(number) if number > 0) {
            return Some(false);
        }
        None
    }
}
