// The list in force, and what a query may still weigh.
ghost use Rattle.std.specs.Prelude.{◌≡◌, ◌+◌, ◌<◌, true, length, OnOk, OnErr};

use crate::built::Built;
use sy_terms::Sort;

/// What is left while a query is built.
#[derive(Clone, Copy)]
pub(crate) struct Left {
    /// What it may still weigh.
    pub weight: u64,
    /// Whether 32 bits count all of its positions so far.
    pub counted: bool,
}

/// The sorts of the list in force, and what is left.
#[derive(Drop)]
pub(crate) struct Room {
    pub sorts: Vec<Sort>,
    pub left: Left,
}

impl Room {
    /// These sorts, and so much weight left.
    pub fn new(sorts: Vec<Sort>, weight: u32) -> Room
        ensures sorts { result.sorts ≡ sorts }
        ensures weight { result.left.weight ≡ weight }
    {
        Room {
            sorts,
            left: Left {
                weight: u64::from(weight),
                counted: true,
            },
        }
    }

    /// How long the list in force is.
    pub fn len(&self) -> usize
        ensures { result ≡ length self.now.sorts.items }
    {
        self.sorts.len()
    }

    /// Takes the weight from what is left; `Heavy` exactly where less is left.
    pub fn take(&mut self, weight: u64) -> Result<(), Built>
        ensures ok { OnOk result (self.old.left.weight ≡ self.new.left.weight + weight) }
        ensures heavy { OnErr result (self.old.left.weight < weight) }
        ensures kept { self.new.sorts ≡ self.old.sorts }
        ensures counted { self.new.left.counted ≡ self.old.left.counted }
    {
        match self.left.weight.checked_sub(weight) {
            Some(left) => {
                self.left.weight = left;
                Ok(())
            }
            None => Err(Built::Heavy),
        }
    }

    /// The place as a position; where 32 bits don't count it, this is noted, and another position stands for it.
    pub fn position(&mut self, place: usize) -> u32
        ensures position { self.new.left.counted ≡ true → result ≡ place }
        ensures counted { self.new.left.counted ≡ true → self.old.left.counted ≡ true }
        ensures weight { self.new.left.weight ≡ self.old.left.weight }
        ensures kept { self.new.sorts ≡ self.old.sorts }
    {
        match u32::try_from(place) {
            Ok(position) => position,
            Err(_) => {
                self.left.counted = false;
                0
            }
        }
    }
}
