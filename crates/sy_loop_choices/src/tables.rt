// Places by numbers that stand there.
use std::alloc::Global;
use sy_seq::Want;

/// How often the number of slots is doubled at most.
const MOST_DOUBLED: u32 = 40;

/// Where numbers stand in a list.
#[derive(Drop)]
pub(crate) struct Table {
    /// For each slot one more than the first place; 0 where there is none.
    heads: Vec<usize>,
    /// For each place one more than the next one in its slot.
    next: Vec<usize>,
    /// One bit for each of many more slots: whether there is a number.
    marks: Vec<u64>,
}

impl Table {
    /// The places of these numbers.
    pub(crate) fn new(alloc: Global, numbers: &[u64]) -> Result<Table, Want> {
        let mut slots = 1usize;
        for _ in 0..MOST_DOUBLED {
            if slots / 2 < numbers.len() {
                slots = slots.saturating_mul(2);
            }
        }
        let mut table = Table {
            heads: Vec::from_elem(alloc, 0, slots)?,
            next: Vec::from_elem(alloc, 0, numbers.len())?,
            marks: Vec::from_elem(alloc, 0, (slots / 4).max(1))?,
        };
        for place in (0..numbers.len()).rev() {
            if let Some(number) = numbers.get(place) {
                table.insert(place, mixed(*number));
            }
        }
        Ok(table)
    }

    /// Puts the place before the others of its slot.
    fn insert(&mut self, place: usize, mixed: u64) {
        let slot = slot_of(mixed, self.heads.len());
        if let Some(head) = self.heads.get_mut(slot) {
            if let Some(next) = self.next.get_mut(place) {
                *next = *head;
            }
            *head = place.saturating_add(1);
        }
        let block = slot_of(mixed >> 6, self.marks.len());
        if let Some(marks) = self.marks.get_mut(block) {
            *marks |= 1 << (mixed % 64);
        }
    }

    /// A place at which the number may stand; each at which it does is this one or one of those that come after it.
    pub(crate) fn first(&self, number: u64) -> Option<usize> {
        let mixed = mixed(number);
        let marks = self.marks.get(slot_of(mixed >> 6, self.marks.len()))?;
        if *marks >> (mixed % 64) & 1 == 0 {
            return None;
        }
        self.heads
            .get(slot_of(mixed, self.heads.len()))?
            .checked_sub(1)
    }

    /// The place that comes after this one.
    pub(crate) fn next(&self, place: usize) -> Option<usize> {
        self.next.get(place)?.checked_sub(1)
    }
}

/// A number all bits of which depend on all of this one.
fn mixed(number: u64) -> u64 {
    let product = number.wrapping_mul(11400714819323198485);
    product ^ (product >> 32)
}

/// One of so many slots, which are a power of two.
fn slot_of(mixed: u64, slots: usize) -> usize {
    (mixed & (slots as u64).wrapping_sub(1)) as usize
}
