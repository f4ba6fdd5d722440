// A scan of combinations of random numbers of 64 bits by one operator: the words are the operator (`and`, `mul` or
// `add`) and the number of kept terms. All numbers are odd and 0 is wanted at three points, so that no combination by
// `and` or `mul` has it. It prints how many combinations are named.
use crate::lists::push;
use crate::words::{WANT, next, number, word};
use std::alloc::Global;
use sy_loop_scan::{Pool, Scan, Shape};
use sy_terms::{Op, Sort, Want};

/// How many combinations are judged at most.
const WORK: u64 = 20_000_000;

/// The operator of this name; a sum where it is none of them.
fn operator_of(name: &str) -> Op {
    match name {
        "and" => Op::BvAnd,
        "mul" => Op::BvMul,
        _ => Op::BvAdd,
    }
}

/// So many odd numbers.
fn column(alloc: Global, count: u32, seed: u64) -> Result<Vec<i128>, Want> {
    let mut state = seed;
    let mut numbers = Vec::new(alloc);
    for _ in 0..count {
        state = next(state);
        numbers.push(i128::from(state | 1))?;
    }
    Ok(numbers)
}

/// The operator over two of the kept terms.
fn shapes(alloc: Global, operator: Op) -> Result<Vec<Shape>, Want> {
    let operands = Vec::from_slice(alloc, &[0, 0])?;
    let mut shapes = Vec::new(alloc);
    let shape = Shape {
        rule: 0,
        operator,
        size: 1,
        operands,
    };
    push(&mut shapes, shape)?;
    Ok(shapes)
}

/// So many kept terms of size 1.
fn pools(alloc: Global, count: u32) -> Result<Vec<Pool>, Want> {
    let mut sizes = Vec::new(alloc);
    for _ in 0..count {
        sizes.push(1)?;
    }
    let mut pools = Vec::new(alloc);
    let pool = Pool {
        sort: Sort::Bits(64),
        sizes,
    };
    push(&mut pools, pool)?;
    Ok(pools)
}

/// A scan of the operator over so many kept terms.
fn scan_of(alloc: Global, operator: Op, count: u32) -> Result<Scan, Want> {
    let shapes = shapes(alloc, operator)?;
    let pools = pools(alloc, count)?;
    Scan::new(alloc, shapes, pools, 3, WORK)
}

/// Wants 0 at a point, at which the terms have random odd numbers.
fn add_point(alloc: Global, scan: &mut Scan, count: u32, seed: u64) -> Result<(), Want> {
    let column = column(alloc, count, seed)?;
    let mut columns = Vec::new(alloc);
    push(&mut columns, column)?;
    scan.add_point(0, columns)
}

/// Wants 0 at three points.
fn add_points(alloc: Global, scan: &mut Scan, count: u32) -> Result<(), Want> {
    for seed in 1..4u64 {
        add_point(alloc, scan, count, seed)?;
    }
    Ok(())
}

/// How many combinations the scan names, of a thousand at most.
fn guesses(scan: &mut Scan) -> Result<u32, Want> {
    for named in 0..1000u32 {
        if scan.next_guess()?.is_none() {
            return Ok(named);
        }
    }
    Ok(1000)
}

/// How many combinations are named that have the wanted values.
fn named(alloc: Global, operator: Op, count: u32) -> Result<u32, Want> {
    let mut scan = scan_of(alloc, operator, count)?;
    let named = match add_points(alloc, &mut scan, count) {
        Ok(()) => guesses(&mut scan),
        Err(want) => Err(want),
    };
    drop(scan);
    named
}

/// Scans what the words ask for, and prints how many combinations are named.
pub(crate) fn run(rt: &HostRuntime, words: &[String]) -> u8 {
    let operator = operator_of(word(words, 1));
    match named(rt.alloc(), operator, number(words, 2)) {
        Ok(count) => {
            let _ = println!(rt; "named {count}");
            0
        }
        Err(_) => WANT,
    }
}
