// Sets of points, one bit for each.
ghost use Rattle.std.specs.Prelude.{◌≡◌};
ghost use Rattle.sy_loop_learn.specs.Formulas.{has_point};

/// How many points there may be.
pub(crate) const POINTS: usize = 1024;

const WORDS: usize = 16;

/// A set of points.
#[derive(Clone, Copy)]
pub(crate) struct Row {
    words: [u64; WORDS],
}

impl Row {
    /// No points.
    pub(crate) fn empty() -> Row {
        Row { words: [0; WORDS] }
    }

    /// Whether the point is in it.
    pub(crate) fn has(&self, point: usize) -> bool
        ensures { result ≡ has_point self.now point }
    {
        match self.words.get(point / 64) {
            Some(word) => (*word >> (point % 64)) % 2 == 1,
            None => false,
        }
    }

    /// Adds a point that may be.
    pub(crate) fn insert(&mut self, point: usize) {
        if let Some(word) = self.words.get_mut(point / 64) {
            *word = *word | (1 << (point % 64));
        }
    }

    /// Adds the other's points.
    pub(crate) fn add(&mut self, other: &Row) {
        for (word, part) in self.words.iter_mut().zip(&other.words) {
            *word = *word | *part;
        }
    }

    /// Leaves only those points that are also in the other.
    pub(crate) fn keep(&mut self, other: &Row) {
        for (word, part) in self.words.iter_mut().zip(&other.words) {
            *word = *word & *part;
        }
    }

    /// Takes the other's points away.
    pub(crate) fn remove(&mut self, other: &Row) {
        for (word, part) in self.words.iter_mut().zip(&other.words) {
            *word = *word & !*part;
        }
    }

    /// Whether all points are in the other.
    pub(crate) fn is_within(&self, other: &Row) -> bool {
        for (word, part) in self.words.iter().zip(&other.words) {
            if *word & !*part != 0 {
                return false;
            }
        }
        true
    }

    /// Whether some point is in both.
    pub(crate) fn meets(&self, other: &Row) -> bool {
        for (word, part) in self.words.iter().zip(&other.words) {
            if *word & *part != 0 {
                return true;
            }
        }
        false
    }

    /// How many points are not in the other.
    pub(crate) fn count_beyond(&self, other: &Row) -> u32 {
        let mut count: u32 = 0;
        for (word, part) in self.words.iter().zip(&other.words) {
            count = count.saturating_add((*word & !*part).count_ones());
        }
        count
    }

    /// The least point of both.
    pub(crate) fn first_of_both(&self, other: &Row) -> Option<usize> {
        let mut before: usize = 0;
        for (word, part) in self.words.iter().zip(&other.words) {
            let both = *word & *part;
            if both != 0 {
                return Some(before.saturating_add(both.trailing_zeros() as usize));
            }
            before = before.saturating_add(64);
        }
        None
    }
}
