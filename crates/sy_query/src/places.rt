// Which of the numbers that are tried the variables of a query get, by places.
use std::alloc::Global;
use sy_terms::Want;

/// The places of so many variables among so many numbers: `start` for the first, and so many steps on for each later
/// one.
pub(crate) fn stepped(
    alloc: Global,
    variables: usize,
    start: usize,
    step: usize,
    numbers: usize,
) -> Result<Vec<usize>, Want> {
    let mut places = Vec::with_capacity(alloc, variables)?;
    let mut place = start;
    for _ in 0..variables {
        places.push(place)?;
        place = place.wrapping_add(step) % numbers.max(1);
    }
    Ok(places)
}

/// The place that stands there; place 0 past the end.
pub(crate) fn place_at(places: &[usize], index: usize) -> usize {
    match places.get(index) {
        Some(place) => *place,
        None => 0,
    }
}

/// All places in some order, another one after each turn.
#[derive(Drop)]
pub(crate) struct Shuffle {
    places: Vec<usize>,
    state: u64,
}

impl Shuffle {
    /// The places of so many numbers in order.
    pub(crate) fn new(alloc: Global, numbers: usize) -> Result<Shuffle, Want> {
        let mut places = Vec::with_capacity(alloc, numbers)?;
        for place in 0..numbers {
            places.push(place)?;
        }
        Ok(Shuffle { places, state: 1 })
    }

    /// Puts the places into another order.
    pub(crate) fn turn(&mut self) {
        let count = self.places.len();
        for place in 0..count {
            let left = count.saturating_sub(place).max(1);
            let other = place.saturating_add(self.next() % left);
            if other < self.places.len() && place < self.places.len() {
                self.places.swap(place, other);
            }
        }
    }

    /// The places, in this order.
    pub(crate) fn places(&self) -> &[usize] {
        self.places.as_slice()
    }

    /// The next number of a row without a pattern.
    fn next(&mut self) -> usize {
        self.state = self
            .state
            .wrapping_mul(6_364_136_223_846_793_005)
            .wrapping_add(1_442_695_040_888_963_407);
        (self.state >> 33) as usize
    }
}
