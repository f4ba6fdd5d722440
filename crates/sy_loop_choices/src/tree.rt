// Trees of conditions over leaves.
use crate::gathered::{Gathered, Part};
use std::alloc::Global;
use sy_seq::Want;

/// How many branches a tree has at most.
const MOST_BRANCHES: usize = 256;

/// A leaf's number; or a condition's, with the places of the branches where it holds and where it doesn't.
#[derive(Drop)]
pub(crate) enum Branch {
    Leaf(usize),
    Test {
        condition: usize,
        yes: usize,
        no: usize,
    },
}

/// Branches, from the root on: each stands before those that it leads to. And the size of the whole.
#[derive(Drop)]
pub(crate) struct Tree {
    pub(crate) branches: Vec<Branch>,
    pub(crate) choices: u32,
    pub(crate) size: u32,
}

/// How well a condition parts points: what is left mixed on its sides is `mixed / sizes`.
#[derive(Drop)]
struct Split {
    mixed: u64,
    sizes: u64,
    size: u32,
}

impl Split {
    /// The condition's split of these points, some of which are good; `None` where all go to one side.
    fn of(condition: &Part, points: u128, good: u128) -> Option<Split> {
        let there = condition.row & points;
        let here = points ^ there;
        if there == 0 || here == 0 {
            return None;
        }
        let (mixed_there, size_there) = mixed(there, good);
        let (mixed_here, size_here) = mixed(here, good);
        let mixed = mixed_there
            .saturating_mul(size_here)
            .saturating_add(mixed_here.saturating_mul(size_there));
        Some(Split {
            mixed,
            sizes: size_there.saturating_mul(size_here),
            size: condition.size,
        })
    }

    /// Whether less is left mixed than by the other, or as much by less.
    fn is_better(&self, other: &Split) -> bool {
        let own = self.mixed.saturating_mul(other.sizes);
        let theirs = other.mixed.saturating_mul(self.sizes);
        own < theirs || (own == theirs && self.size < other.size)
    }
}

/// How many pairs of a good point and another one are among these, and how many points.
fn mixed(points: u128, good: u128) -> (u64, u64) {
    let size = u64::from(points.count_ones());
    let good = u64::from((points & good).count_ones());
    (good.saturating_mul(size.saturating_sub(good)), size)
}

/// The number of the leaf that is good at the most of the points, the smallest of such. `None` where none is good at
/// any.
fn widest(leaves: &[Part], points: u128) -> Option<usize> {
    let mut best = None;
    let mut most = 0u32;
    let mut least = 0u32;
    for (number, leaf) in leaves.iter().enumerate() {
        let count = (leaf.row & points).count_ones();
        if count > most || (count == most && count > 0 && leaf.size < least) {
            best = Some(number);
            most = count;
            least = leaf.size;
        }
    }
    best
}

/// The number of the condition that best parts the points from the good ones among them; `None` where none parts them.
fn sharpest(conditions: &[Part], points: u128, good: u128) -> Option<usize> {
    let mut best: Option<Split> = None;
    let mut number = None;
    for (place, condition) in conditions.iter().enumerate() {
        if let Some(split) = Split::of(condition, points, good) {
            let better = match &best {
                Some(least) => split.is_better(least),
                None => true,
            };
            if better {
                best = Some(split);
                number = Some(place);
            }
        }
    }
    number
}

/// A tree that serves all points, if one is found.
pub(crate) fn tree_of(alloc: Global, gathered: &Gathered) -> Result<Option<Tree>, Want> {
    if gathered.unserved() != 0 {
        return Ok(None);
    }
    let mut tree = Tree {
        branches: Vec::new(alloc),
        choices: 0,
        size: 0,
    };
    let mut sets = Vec::new(alloc);
    sets.push(gathered.all)?;
    for place in 0..MOST_BRANCHES {
        let Some(points) = sets.get(place) else {
            return Ok(Some(tree));
        };
        let points = *points;
        let Some(leaf) = widest(gathered.leaves.list.as_slice(), points) else {
            return Ok(None);
        };
        if !tree.grow(gathered, points, leaf, &mut sets)? {
            return Ok(None);
        }
    }
    Ok(None)
}

impl Tree {
    /// Adds the leaf where it serves the points, else a condition, and what is left for its branches. Whether it did.
    fn grow(
        &mut self,
        gathered: &Gathered,
        points: u128,
        leaf: usize,
        sets: &mut Vec<u128>,
    ) -> Result<bool, Want> {
        let Some(found) = gathered.leaves.list.get(leaf) else {
            return Ok(false);
        };
        if found.row & points == points {
            self.size = self.size.saturating_add(found.size);
            self.branches.push(Branch::Leaf(leaf))?;
            return Ok(true);
        }
        let Some(condition) = sharpest(gathered.conditions.list.as_slice(), points, found.row)
        else {
            return Ok(false);
        };
        let Some(test) = gathered.conditions.list.get(condition) else {
            return Ok(false);
        };
        self.size = self.size.saturating_add(test.size);
        self.choices = self.choices.saturating_add(1);
        let yes = sets.len();
        sets.push(points & test.row)?;
        let no = sets.len();
        sets.push(points & (test.row ^ gathered.all))?;
        self.branches.push(Branch::Test { condition, yes, no })?;
        Ok(true)
    }
}
