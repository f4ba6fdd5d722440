// A join of leaves by conditions over many points: the words are the numbers of points, of leaves and of conditions. It
// prints how many leaves the tree has.
ghost use Rattle.std.specs.Prelude.{◌<◌};

use crate::words::{WANT, next, number};
use std::alloc::Global;
use sy_seq::{Seq, Want};
use sy_unify::{Choice, Joined, unify};

/// A row of so many truth values, one in `sparse` of which is true.
fn row(alloc: Global, points: u32, sparse: u64, state: &mut u64) -> Result<Seq<bool>, Want>
    requires { 0 < sparse }
{
    let mut row = Seq::new(alloc);
    for _ in 0..points {
        *state = next(*state);
        row.push((*state >> 33) % sparse == 0)?;
    }
    Ok(row)
}

/// So many such rows.
fn rows(
    alloc: Global,
    count: u32,
    points: u32,
    sparse: u64,
    seed: u64,
) -> Result<Seq<Seq<bool>>, Want>
    requires { 0 < sparse }
{
    let mut state = seed;
    let mut all = Seq::new(alloc);
    for _ in 0..count {
        all.push(row(alloc, points, sparse, &mut state)?)?;
    }
    Ok(all)
}

/// How many leaves a tree has.
fn leaves(tree: &Choice) -> u64 {
    match tree {
        Choice::Leaf(_) => 1,
        Choice::Test(_, there, here) => leaves(there).saturating_add(leaves(here)),
    }
}

/// The number of leaves of the tree that was found, or nothing.
fn leaves_of(joined: &Joined) -> Option<u64> {
    match joined {
        Joined::Tree(tree) => Some(leaves(tree)),
        Joined::Uncovered(_) => None,
    }
}

/// The number of leaves of the join, or nothing.
fn joined(
    alloc: Global,
    points: u32,
    goods: &Seq<Seq<bool>>,
    conditions: &Seq<Seq<bool>>,
) -> Result<Option<u64>, Want> {
    if points == 0 || goods.len() > 1_000_000 || conditions.len() > 1_000_000 {
        return Ok(None);
    }
    let found = unify(alloc, points, goods, conditions)?;
    let leaves = leaves_of(&found);
    drop(found);
    Ok(leaves)
}

/// The number of leaves of the join of so many leaves by so many conditions, or nothing.
fn measured(alloc: Global, points: u32, count: u32, tests: u32) -> Result<Option<u64>, Want> {
    let goods = rows(alloc, count, points, 16, 1)?;
    match rows(alloc, tests, points, 2, 2) {
        Ok(conditions) => joined(alloc, points, &goods, &conditions),
        Err(want) => Err(want),
    }
}

/// Joins what the words ask for, and prints how many leaves the tree has.
pub(crate) fn run(rt: &HostRuntime, words: &[String]) -> u8 {
    match measured(
        rt.alloc(),
        number(words, 1),
        number(words, 2),
        number(words, 3),
    ) {
        Ok(Some(count)) => {
            let _ = println!(rt; "tree of {count} leaves");
            0
        }
        Ok(None) => {
            let _ = println!(rt; "uncovered");
            0
        }
        Err(_) => WANT,
    }
}
