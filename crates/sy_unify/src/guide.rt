// Which leaf and which condition a join tries first, so that trees are small. Nothing that is proved of a join rests on
// what this crate answers: a join checks each choice on the rows themselves.
use std::alloc::Global;
use std::collections::HashSet;
use sy_seq::{Seq, Want};

/// A leaf and a condition that are worth a try at a set of points.
#[derive(Clone, Copy)]
pub struct Hint {
    /// A leaf that is good at the most of the points.
    pub leaf: u32,
    /// A condition that best parts the points at which that leaf is good from the others.
    pub condition: u32,
}

/// A row in blocks of 64 points, and its number.
#[derive(Drop)]
struct Row {
    number: u32,
    blocks: Vec<u64>,
}

/// The rows of a join in blocks, equal rows once.
#[derive(Drop)]
pub struct Guide {
    leaves: Vec<Row>,
    conditions: Vec<Row>,
}

/// How well a condition parts points: what is left mixed on its sides is `mixed / sizes`.
#[derive(Clone, Copy)]
struct Split {
    mixed: u64,
    sizes: u64,
}

/// Truth values in blocks of 64.
fn packed(alloc: Global, values: &[bool]) -> Result<Vec<u64>, Want> {
    let mut blocks = Vec::new(alloc);
    for chunk in values.chunks(64) {
        let mut block: u64 = 0;
        for value in chunk {
            block = (block << 1) | u64::from(*value);
        }
        blocks.push(block)?;
    }
    Ok(blocks)
}

/// Each row in blocks, without those that stand earlier.
fn distinct_rows(alloc: Global, rows: &Seq<Seq<bool>>) -> Result<Vec<Row>, Want> {
    let mut seen: HashSet<Vec<u64>> = HashSet::new(alloc);
    let mut distinct = Vec::new(alloc);
    let mut number: u32 = 0;
    for row in rows.as_slice() {
        let blocks = packed(alloc, row.as_slice())?;
        if seen.insert(blocks.clone()?)? {
            distinct.push(Row { number, blocks })?;
        }
        number = number.saturating_add(1);
    }
    Ok(distinct)
}

/// The points in both rows.
fn joint(alloc: Global, a: &[u64], b: &[u64]) -> Result<Vec<u64>, Want> {
    a.iter().zip(b).map(|(x, y)| *x & *y).collect(alloc)
}

/// How many points a row has.
fn count(a: &[u64]) -> u64 {
    let mut count: u64 = 0;
    for x in a {
        count = count.saturating_add(u64::from(x.count_ones()));
    }
    count
}

/// How many points are in both rows.
fn joint_count(a: &[u64], b: &[u64]) -> u64 {
    let mut count: u64 = 0;
    for (x, y) in a.iter().zip(b) {
        count = count.saturating_add(u64::from((*x & *y).count_ones()));
    }
    count
}

/// A mark at each of these points, in a row of so many.
fn marks(alloc: Global, points: &[u32], size: u32) -> Result<Vec<bool>, Want> {
    let mut marks = Vec::from_elem(alloc, false, size as usize)?;
    for x in points {
        if let Some(mark) = marks.get_mut(*x as usize) {
            *mark = true;
        }
    }
    Ok(marks)
}

impl Split {
    /// Whether less is left mixed than by the other.
    fn is_better(&self, other: &Split) -> bool {
        self.mixed.saturating_mul(other.sizes) < other.mixed.saturating_mul(self.sizes)
    }

    /// The split of `size` points, `good` of which are good, into `there`, `good_there` of which are good, and the
    /// rest. `None` where one side is empty.
    fn of(size: u64, good: u64, there: u64, good_there: u64) -> Option<Split> {
        let here = size.saturating_sub(there);
        if there == 0 || here == 0 {
            return None;
        }
        let mixed_there = good_there.saturating_mul(there.saturating_sub(good_there));
        let good_here = good.saturating_sub(good_there);
        let mixed_here = good_here.saturating_mul(here.saturating_sub(good_here));
        Some(Split {
            mixed: (mixed_there.saturating_mul(here)).saturating_add(mixed_here.saturating_mul(
                there,
            )),
            sizes: there.saturating_mul(here),
        })
    }
}

impl Guide {
    /// The guide of these leaves and conditions.
    pub fn new(
        alloc: Global,
        goods: &Seq<Seq<bool>>,
        conditions: &Seq<Seq<bool>>,
    ) -> Result<Guide, Want> {
        let leaves = distinct_rows(alloc, goods)?;
        let conditions = distinct_rows(alloc, conditions)?;
        Ok(Guide { leaves, conditions })
    }

    /// The first leaf of those that are good at the most of the points, with these points of it.
    fn widest(&self, alloc: Global, points: &[u64]) -> Result<(u32, Vec<u64>), Want> {
        let mut best: Option<&Row> = None;
        let mut most: u64 = 0;
        for leaf in &self.leaves {
            let good = joint_count(leaf.blocks.as_slice(), points);
            if good > most {
                most = good;
                best = Some(leaf);
            }
        }
        match best {
            Some(leaf) => Ok((leaf.number, joint(alloc, leaf.blocks.as_slice(), points)?)),
            None => Ok((0, Vec::new(alloc))),
        }
    }

    /// The first condition of those that best part the points from the good ones among them.
    fn sharpest(&self, points: &[u64], good: &[u64]) -> u32 {
        let size = count(points);
        let all_good = count(good);
        let mut best: Option<Split> = None;
        let mut condition: u32 = 0;
        for row in &self.conditions {
            let there = joint_count(row.blocks.as_slice(), points);
            let good_there = joint_count(row.blocks.as_slice(), good);
            if let Some(split) = Split::of(size, all_good, there, good_there) {
                let better = match best {
                    Some(least) => split.is_better(&least),
                    None => true,
                };
                if better {
                    best = Some(split);
                    condition = row.number;
                }
            }
        }
        condition
    }

    /// What is worth a try at these points of a join, of so many in all.
    pub fn hint(&self, alloc: Global, points: &[u32], size: u32) -> Result<Hint, Want> {
        let marks = marks(alloc, points, size)?;
        let points = packed(alloc, marks.as_slice())?;
        let (leaf, good) = self.widest(alloc, points.as_slice())?;
        let condition = self.sharpest(points.as_slice(), good.as_slice());
        Ok(Hint { leaf, condition })
    }
}
