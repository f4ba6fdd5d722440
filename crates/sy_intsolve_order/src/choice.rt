// The choice among the open tests that are listed.
use crate::asking::Occurrence;
use crate::marks::Mark;
use std::alloc::Global;
use sy_seq::Want;

/// What is counted of a test.
#[derive(Clone, Copy)]
struct Tally {
    /// How often it is listed.
    count: u32,
    /// The last group but the common one in which it was listed, else 0.
    group: usize,
    /// Whether it was listed in the common group.
    is_common: bool,
}

impl Tally {
    /// A test that isn't listed.
    fn none() -> Tally {
        Tally {
            count: 0,
            group: 0,
            is_common: false,
        }
    }

    /// Counts a test in the group; whether it is the first time there.
    fn add(&mut self, group: usize) -> bool {
        self.count = self.count.saturating_add(1);
        if group == 0 {
            let is_first = !self.is_common;
            self.is_common = true;
            return is_first;
        }
        let is_first = self.group != group;
        self.group = group;
        is_first
    }
}

/// What is known of the node of this number.
fn mark_of(marks: &[Mark], node: usize) -> Mark {
    match marks.get(node) {
        Some(mark) => *mark,
        None => Mark::root(),
    }
}

/// What is counted of the listed tests.
#[derive(Drop)]
pub(crate) struct Counts {
    tallies: Vec<Tally>,
    /// How many tests are listed in each group.
    sizes: Vec<u32>,
}

impl Counts {
    /// Nothing. It takes no memory.
    pub(crate) fn new(alloc: Global) -> Counts {
        Counts {
            tallies: Vec::new(alloc),
            sizes: Vec::new(alloc),
        }
    }

    /// Counts the listed tests, of so many, and for each group those that are listed in it.
    fn count(&mut self, tests: usize, marks: &[Mark], listed: &[Occurrence]) -> Result<(), Want> {
        self.tallies.clear();
        self.tallies.resize(tests, Tally::none())?;
        self.sizes.clear();
        self.sizes.resize(marks.len(), 0)?;
        for occurrence in listed {
            let group = mark_of(marks, occurrence.node).group;
            let is_first = match self.tallies.get_mut(occurrence.test) {
                Some(tally) => tally.add(group),
                None => false,
            };
            if is_first && let Some(size) = self.sizes.get_mut(group) {
                *size = size.saturating_add(1);
            }
        }
        Ok(())
    }

    /// How many tests are listed in the group.
    fn size_of(&self, group: usize) -> u32 {
        match self.sizes.get(group) {
            Some(size) => *size,
            None => 0,
        }
    }

    /// How often the test is listed.
    fn count_of(&self, test: usize) -> u32 {
        match self.tallies.get(test) {
            Some(tally) => tally.count,
            None => 0,
        }
    }

    /// Whether the group of the first node goes before that of the second: by fewer premises round it, then by fewer
    /// tests, then by rank.
    fn goes_before(&self, first: &Mark, second: &Mark) -> bool {
        let sizes = (self.size_of(first.group), self.size_of(second.group));
        if first.phase != second.phase {
            first.phase < second.phase
        } else if sizes.0 != sizes.1 {
            sizes.0 < sizes.1
        } else {
            first.rank < second.rank
        }
    }

    /// The group to which the choice is narrowed.
    fn narrowed(&self, marks: &[Mark], listed: &[Occurrence]) -> Option<usize> {
        let mut least: Option<Mark> = None;
        for occurrence in listed {
            let mark = mark_of(marks, occurrence.node);
            let is_less = match &least {
                Some(other) => self.goes_before(&mark, other),
                None => true,
            };
            if is_less {
                least = Some(mark);
            }
        }
        Some(least?.group)
    }

    /// Whether the first occurrence goes before the second: by more occurrences of its test, then by phase and rank.
    fn is_better(&self, marks: &[Mark], first: &Occurrence, second: &Occurrence) -> bool {
        let counts = (self.count_of(first.test), self.count_of(second.test));
        let (mark, other) = (mark_of(marks, first.node), mark_of(marks, second.node));
        if counts.0 != counts.1 {
            counts.0 > counts.1
        } else if mark.phase != other.phase {
            mark.phase < other.phase
        } else {
            mark.rank < other.rank
        }
    }

    /// The best of the listed tests of the group to which the choice is narrowed.
    fn best(&self, marks: &[Mark], listed: &[Occurrence]) -> Option<usize> {
        let group = self.narrowed(marks, listed)?;
        let mut best: Option<Occurrence> = None;
        for occurrence in listed {
            if mark_of(marks, occurrence.node).group != group {
                continue;
            }
            let is_better = match &best {
                Some(other) => self.is_better(marks, occurrence, other),
                None => true,
            };
            if is_better {
                best = Some(*occurrence);
            }
        }
        Some(best?.test)
    }

    /// The test that is chosen among those that are listed, of so many; none where none is.
    pub(crate) fn chosen(
        &mut self,
        tests: usize,
        marks: &[Mark],
        listed: &[Occurrence],
    ) -> Result<Option<usize>, Want> {
        self.count(tests, marks, listed)?;
        Ok(self.best(marks, listed))
    }
}
