// Leaves and conditions, each set of points once.
use std::alloc::Global;
use std::collections::HashMap;
use sy_seq::Want;

/// How many leaves, or conditions, are gathered at most.
const MOST_PARTS: usize = 400_000;

/// What a leaf or a condition is made of.
#[derive(Clone, Copy)]
pub(crate) enum Made {
    /// The kept terms of this number: of a leaf the one of this place.
    Kept(usize),
    /// The shape's rule over kept terms of these places, of which a rule of one part takes the first.
    Rule {
        shape: usize,
        first: usize,
        second: usize,
    },
    /// This bit of the kept term of this place.
    Bit {
        place: usize,
        bit: u32,
    },
}

/// What a part of a tree does.
#[derive(Clone, Copy)]
pub(crate) enum Role {
    /// It gives the body.
    Leaf,
    /// It is what the other parts of the chooser of this number are.
    Condition(usize),
}

/// A leaf with the points at which it has the wanted value, or a condition with those at which its chooser has the
/// value of the first of two parts; and its size, that of a condition with the chooser.
#[derive(Clone, Copy)]
pub(crate) struct Part {
    pub(crate) role: Role,
    pub(crate) row: u128,
    pub(crate) size: u32,
    pub(crate) made: Made,
}

/// Parts, and the place of each by its row.
#[derive(Drop)]
pub(crate) struct Parts {
    pub(crate) list: Vec<Part>,
    places: HashMap<u128, usize>,
}

/// What a tree can be made of.
#[derive(Drop)]
pub(crate) struct Gathered {
    /// All points.
    pub(crate) all: u128,
    pub(crate) leaves: Parts,
    pub(crate) conditions: Parts,
}

impl Parts {
    /// Takes the part, unless a smaller one stands for the same points, or for none.
    fn offer(&mut self, row: u128, part: Part) -> Result<(), Want> {
        match self.places.get(&row) {
            Some(place) => {
                if let Some(other) = self.list.get_mut(*place) {
                    if part.size < other.size {
                        *other = part;
                    }
                }
            }
            None => {
                if row != 0 && self.list.len() < MOST_PARTS {
                    self.places.insert(row, self.list.len())?;
                    self.list.push(part)?;
                }
            }
        }
        Ok(())
    }
}

impl Gathered {
    /// Nothing, over these points.
    pub(crate) fn new(alloc: Global, all: u128) -> Gathered {
        Gathered {
            all,
            leaves: Parts {
                list: Vec::new(alloc),
                places: HashMap::new(alloc),
            },
            conditions: Parts {
                list: Vec::new(alloc),
                places: HashMap::new(alloc),
            },
        }
    }

    /// Takes the part, unless a smaller one does as well, or it is good for nothing. A condition does as well as its
    /// opposite.
    pub(crate) fn offer(&mut self, part: Part) -> Result<(), Want> {
        match part.role {
            Role::Leaf => self.leaves.offer(part.row, part),
            Role::Condition(_) => {
                let turned = if part.row & 1 == 1 { self.all } else { 0 };
                self.conditions.offer(part.row ^ turned, part)
            }
        }
    }

    /// The points at which no leaf is good.
    pub(crate) fn unserved(&self) -> u128 {
        let mut left = self.all;
        for leaf in &self.leaves.list {
            left &= self.all ^ leaf.row;
        }
        left
    }
}
