// Joins of small tables, with the trees or the classes of points that are wanted.
use crate::rows::{are_numbers, field, number};
use std::alloc::Global;
use std::process::Abort;
use sy_terms::Seq;
use sy_unify::{Choice, Joined, unify};

/// The values of a leaf or a condition, a character a point.
fn values(rt: &impl Abort, alloc: Global, text: &str) -> Seq<bool> {
    let mut values = Seq::new(alloc);
    for sign in text.as_bytes() {
        values.push(*sign == b'1').expect(rt, text);
    }
    values
}

/// The values of leaves or conditions between spaces.
fn all_values(rt: &impl Abort, alloc: Global, text: &str) -> Seq<Seq<bool>> {
    let mut all = Seq::new(alloc);
    if text.is_empty() {
        return all;
    }
    for word in text.split(' ') {
        all.push(values(rt, alloc, word)).expect(rt, text);
    }
    all
}

/// Whether the value of this number is true at the point.
fn holds(text: &str, number: u32, point: u32) -> bool {
    match text.split(' ').nth(number as usize) {
        Some(values) => values.as_bytes().get(point as usize).copied() == Some(b'1'),
        None => false,
    }
}

fn reached(conditions: &str, point: u32, tree: &Choice) -> u32 {
    match tree {
        Choice::Leaf(leaf) => *leaf,
        Choice::Test(test, there, here) => {
            if holds(conditions, *test, point) {
                reached(conditions, point, there)
            } else {
                reached(conditions, point, here)
            }
        }
    }
}

fn leaves(tree: &Choice) -> usize {
    match tree {
        Choice::Leaf(_) => 1,
        Choice::Test(_, there, here) => leaves(there).saturating_add(leaves(here)),
    }
}

/// Whether the tree has as many leaves as the row tells, and the leaf that it reaches is good at each point.
fn is_good(row: &str, tree: &Choice) -> bool {
    let (goods, conditions) = (field(row, 1), field(row, 2));
    let mut is_good = leaves(tree) == number(row, 3) as usize;
    for point in 0..number(row, 0) {
        is_good &= holds(goods, reached(conditions, point, tree), point);
    }
    is_good
}

/// Whether the row's join answers as it tells.
pub fn is_right(rt: &impl Abort, alloc: Global, row: &str) -> bool {
    let points = number(row, 0);
    let goods = all_values(rt, alloc, field(row, 1));
    let conditions = all_values(rt, alloc, field(row, 2));
    assert!(rt; 1 <= points);
    assert!(rt; goods.len() < 100);
    assert!(rt; conditions.len() < 100);
    let joined = unify(alloc, points, &goods, &conditions).expect(rt, row);
    let is_right = match &joined {
        Joined::Tree(tree) => is_good(row, tree),
        Joined::Uncovered(class) => {
            number(row, 3) == 0 && are_numbers(class.as_slice(), field(row, 4))
        }
    };
    drop(joined);
    is_right
}

/// How many points there are, where each leaf is good, where each condition is true, and the leaves of a tree that
/// joins them; or 0, and a class of points that none covers.
///
/// Two points that one condition parts, and the same without it; one point; one leaf good everywhere, first, last, and
/// beside conditions; no leaf at one point; conditions that split nothing; conditions that repeat, and that are each
/// other's negation; leaves that repeat; each point its own leaf; a class that is whole and in order; a good condition
/// before a bad one, where two leaves suffice; and rows that are shorter than the points, which say false past their
/// end.
pub const ROWS: &str = "\
2|10 01|10|2
2|10 01||0|0 1
1|1||1
1|0|1|0|0
1||1|0|0
4|1111||1
4|0111 1110 1111|1000|1
3|110 100|100 010|0|2
4|1011 1010|1100 1010|0|1
3|110 011|111 000|0|0 1 2
3|111|111 000|1
4|1100 0011|1100 1100 1100|2
4|1100 0011|0011 1100|2
4|1010 0101|1100 0011|0|0 1
4|1000 1000 0111 0111|1000|2
4|1000 0100 0010 0001|1100 1010|4
4|1000 0100 0010 0001|1000 0100 0010|4
4|1000 0100 0010 0001|1000 0100|0|2 3
6|101010 010100|101010|0|1 3 5
5|10000 01111|00110 10000|2
8|11110000 00001111|10101010 11001100 11110000|2
8|11111100 00000011|10000000 01000000 11111100|2
3|1 011|1|2
3|11|1|0|1 2
";
