// Sums of vectors that are the same at all rows.
use crate::sums::{Sum, WIDTH};
use crate::tokens::Token;
use sy_terms::{Op, Sort, Want};

/// How many arguments at most are summed.
const MOST_SUMMED: usize = 8;

/// A sum of vectors of one width, with coefficients 1 and -1, and what it is at all rows: 0, 1 or -1 modulo the width.
#[derive(Clone, Copy)]
pub struct VectorSum {
    /// The coefficients.
    pub sum: Sum,
    /// The width.
    pub width: u8,
    /// What it is.
    pub constant: i128,
}

/// The sum of this number and of so many arguments, where there is one, and all rows agree on it.
pub fn vector_sum_at(number: u32, size: u32, rows: &[Sum], sorts: &[Sort]) -> Option<VectorSum> {
    let sum = signs_of(number, sorts.len().min(MOST_SUMMED));
    if width_of(&sum) != size {
        return None;
    }
    let width = common_width(&sum, sorts)?;
    let constant = constant_at_all(rows, &sum, width)?;
    Some(VectorSum {
        sum,
        width,
        constant,
    })
}

/// The width of the arguments in the sum, which all are vectors of it.
fn common_width(sum: &Sum, sorts: &[Sort]) -> Option<u8> {
    let mut common = None;
    for (number, sort) in sum.numbers.iter().zip(sorts) {
        if *number != 0 {
            match (sort, common) {
                (Sort::Bits(width), None) => common = Some(*width),
                (Sort::Bits(width), Some(other)) if *width == other => {}
                _ => return None,
            }
        }
    }
    common
}

/// Writes the sum of the vectors with coefficients above 0, and 1 where it is to be added; 0 where there are none.
pub(crate) fn write_vectors(
    sum: &Sum,
    width: u8,
    one: bool,
    side: &mut Vec<Token>,
) -> Result<(), Want> {
    side.clear();
    let mut position = 0u32;
    for number in sum.numbers.iter().take(WIDTH) {
        if *number > 0 {
            side.push(Token::Variable(position))?;
        }
        position = position.saturating_add(1);
    }
    if one || side.is_empty() {
        side.push(Token::Constant(Sort::Bits(width), i128::from(one)))?;
    }
    for _ in 1..side.len() {
        side.push(Token::Apply(Op::BvAdd, 2))?;
    }
    Ok(())
}

/// The sum of so many arguments with coefficients 0, 1 and -1 of this number, the first of which is 1.
fn signs_of(number: u32, count: usize) -> Sum {
    let mut sum = Sum::constant(0);
    let mut left = number;
    for place in 0..count.min(WIDTH) {
        sum.numbers[place] = match left % 3 {
            0 => 0,
            1 => 1,
            _ => -1,
        };
        left /= 3;
    }
    let is_turned = sum.numbers.iter().find(|number| **number != 0) == Some(&-1);
    if left != 0 || is_turned {
        Sum::constant(0)
    } else {
        sum
    }
}

/// How many coefficients aren't 0.
pub(crate) fn width_of(sum: &Sum) -> u32 {
    let mut width = 0u32;
    for number in sum.numbers.iter().take(WIDTH) {
        if *number != 0 {
            width = width.saturating_add(1);
        }
    }
    width
}

/// What the sum is at all rows modulo the width, if it is the same, and 0, 1 or -1; of four vectors only 0.
fn constant_at_all(rows: &[Sum], parts: &Sum, width: u8) -> Option<i128> {
    let modulus = 1i128 << width.min(64);
    let mut common = None;
    for row in rows {
        let value = parts
            .value(&row.numbers[..WIDTH])?
            .checked_rem_euclid(modulus)?;
        match common {
            Some(other) if other != value => return None,
            _ => common = Some(value),
        }
    }
    let constant = common?;
    let is_short = constant <= 1 || constant == modulus.saturating_sub(1);
    if is_short && (constant == 0 || width_of(parts) < 4) {
        Some(constant)
    } else {
        None
    }
}
