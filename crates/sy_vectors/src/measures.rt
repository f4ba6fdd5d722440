// Copies, sizes and depths of terms, and which terms are equal.
use crate::terms::term;
use std::alloc::Global;
use std::process::Abort;
use sy_terms::{Term, Theory};

/// Integers that differ in one place each, with their sizes and depths.
pub const INTEGERS: &str = "\
a|1|1
b|1|1
0|1|1
1|1|1
true|1|1
+ a b|3|2
div a b|3|2
D a|2|2
F a|2|2
let/1 a b|3|2
let/1 a neg b|4|3
";

/// Vectors that differ in one place each.
pub const VECTORS: &str = "\
a|1|1
b|1|1
8:0|1|1
8:1|1|1
true|1|1
bvadd a b|3|2
bvudiv a b|3|2
D a|2|2
F a|2|2
let/1 a b|3|2
let/1 a bvnot b|4|3
";

/// Whether the term has this size and depth, also where one is capped at 2.
fn is_measured<T: Theory>(term: &Term<T>, told: &str) -> bool {
    let (size, depth) = told.split_once('|').unwrap_or((told, ""));
    let (size, depth) = (size.parse().unwrap_or(0), depth.parse().unwrap_or(0));
    let is_whole = term.size(100) == size && term.depth(100) == depth;
    is_whole && term.size(2) == size.min(2) && term.depth(2) == depth.min(2)
}

/// Whether the term is equal to the one of this text.
fn is_equal<T: Theory>(rt: &impl Abort, alloc: Global, text: &str, copy: &Term<T>) -> bool {
    let other = term::<T>(rt, alloc, text);
    let is_equal = other.equals(copy);
    drop(other);
    is_equal
}

/// Whether the copy is equal to the term of this one of the rows alone.
fn is_alone<T: Theory>(
    rt: &impl Abort,
    alloc: Global,
    rows: &str,
    row: &str,
    copy: &Term<T>,
) -> bool {
    let mut is_alone = true;
    for other in rows.lines() {
        let (text, _) = other.split_once('|').unwrap_or((other, ""));
        is_alone &= is_equal(rt, alloc, text, copy) == (row == other);
    }
    is_alone
}

/// Whether a copy of the row's term has its size and depth, and is equal to the term of this one of the rows alone.
pub fn is_right<T: Theory>(rt: &impl Abort, alloc: Global, rows: &str, row: &str) -> bool {
    let (text, told) = row.split_once('|').unwrap_or((row, ""));
    let original = term::<T>(rt, alloc, text);
    let copy = original.copy(alloc).expect(rt, row);
    drop(original);
    let is_right = is_measured(&copy, told) && is_alone(rt, alloc, rows, row, &copy);
    drop(copy);
    is_right
}
