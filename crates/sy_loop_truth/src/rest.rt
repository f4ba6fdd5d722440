// Where constraints rest.

/// A constraint that rests on a point of the function to be found, at a stored assignment: the number of each.
#[derive(Clone, Copy)]
pub struct Rest {
    pub constraint: usize,
    pub place: usize,
    pub point: usize,
}
