// Combinations of `x`, `y`, `x & y` and `x ^ y` over 8 bits, and of the same whole numbers.
use crate::rows::{field, number};
use crate::terms::operator;
use std::alloc::Global;
use std::process::Abort;
use sy_loop_scan::{Pool, Scan, Shape};
use sy_terms::{Op, Sort};

/// The values of the four, where `x` and `y` are 12 and 10, 200 and 7, 85 and 170.
const VALUES: [[i128; 4]; 3] = [[12, 10, 8, 6], [200, 7, 0, 207], [85, 170, 0, 255]];

/// The sort of the operands.
fn operand_sort(operator: Op) -> Sort {
    match operator {
        Op::Div | Op::Mod => Sort::Int,
        _ => Sort::Bits(8),
    }
}

/// A scan of the sign's operator at kept terms, which are the four, of size 2, with so much work to do.
fn scan(rt: &impl Abort, alloc: Global, sign: u8, bound: u32, work: u32) -> Scan {
    let (operator, count) = operator(sign).expect(rt, "an operator");
    let mut operands = Vec::new(alloc);
    for _ in 0..count {
        operands.push(0).expect(rt, "memory");
    }
    let mut shapes = Vec::new(alloc);
    let shape = Shape {
        rule: 0,
        operator,
        size: 1,
        operands,
    };
    shapes.push(shape).expect(rt, "memory");
    let mut pools = Vec::new(alloc);
    let pool = Pool {
        sort: operand_sort(operator),
        sizes: Vec::from_slice(alloc, &[2, 2, 2, 2]).expect(rt, "memory"),
    };
    pools.push(pool).expect(rt, "memory");
    Scan::new(alloc, shapes, pools, bound, u64::from(work)).expect(rt, "memory")
}

/// One point more.
fn want(rt: &impl Abort, alloc: Global, scan: &mut Scan, wanted: u32, values: &[i128]) {
    let mut columns = Vec::new(alloc);
    let column = Vec::from_slice(alloc, values).expect(rt, "memory");
    columns.push(column).expect(rt, "memory");
    scan.add_point(i128::from(wanted), columns)
        .expect(rt, "memory");
}

/// Whether the parts are these, a digit each.
fn are_parts(parts: &[usize], digits: &[u8]) -> bool {
    if parts.len() != digits.len() {
        return false;
    }
    for (part, digit) in parts.iter().zip(digits) {
        if *part != usize::from(digit.wrapping_sub(b'0')) {
            return false;
        }
    }
    true
}

/// Whether the parts of the next combination are these, none where there is none.
fn is_next(rt: &impl Abort, scan: &mut Scan, parts: &str) -> bool {
    match scan.next_guess().expect(rt, "memory") {
        Some(guess) => are_parts(guess.parts.as_slice(), parts.as_bytes()),
        None => parts.is_empty(),
    }
}

/// An operator, a bound of the size, the work that may be done, and steps: a number is wanted at one point more, and
/// after `:` stand the parts of the first combination that has the wanted values. In the last four rows a point more
/// rules out what was wanted before, the bound rules out all, nothing is named where nothing is wanted, and the work of
/// one look-up is just too little and enough.
pub(crate) const ROWS: &str = "\
combination|a|20|1000|22 207 255 :01
combination|s|20|1000|254 63 85 :10
combination|^|20|1000|14 207 255 :23
combination|o|20|1000|14 207 255 :01
combination|*|20|1000|120 120 114 :01
combination|/|20|1000|1 28 0 :01
combination|r|20|1000|0 1 0 :01
combination|&|20|1000|12 200 0 :
combination|~|20|1000|243 55 170 :0
combination|d|20|1000|1 28 0 :01
combination|m|20|1000|2 4 85 :01
combination|m|20|1000|4 200 85 :02
combination|a|5|1000|: 20 :02 14 :11
combination|a|4|1000|20 :
combination|a|20|24|22 207 255 :
combination|a|20|25|22 207 255 :01";

/// Whether the row is right.
pub(crate) fn is_right(rt: &impl Abort, alloc: Global, row: &str) -> bool {
    let sign = field(row, 1).as_bytes().first().expect(rt, "an operator");
    let mut scan = scan(rt, alloc, *sign, number(row, 2), number(row, 3));
    let mut points = 0usize;
    let mut is_right = true;
    for step in field(row, 4).split(' ') {
        match step.strip_prefix(':') {
            Some(found) => is_right &= is_next(rt, &mut scan, found),
            None => {
                let values = VALUES.get(points).expect(rt, "a point");
                want(rt, alloc, &mut scan, number(step, 0), values);
                points = points.saturating_add(1);
            }
        }
    }
    drop(scan);
    is_right
}
