// Sums of integer arguments.
use crate::comparisons::Relation;
use crate::tokens::{Token, mixed};
use std::alloc::Global;
use sy_terms::{Op, Sort, Want};

/// How many arguments sums have; those behind aren't summed.
pub const WIDTH: usize = 16;

/// The greatest magnitude of a number of a sum.
const MOST: u128 = 1 << 62;

/// How a sum compares with 0.
#[derive(Clone, Copy, PartialEq, Eq)]
pub enum Kind {
    /// It is at most 0.
    AtMost,
    /// It is 0.
    Equal,
    /// It isn't 0.
    Unequal,
}

/// A sum: the arguments' coefficients, and the constant behind them.
#[derive(Clone, Copy)]
pub struct Sum {
    /// The coefficients, and the constant.
    pub numbers: [i128; 17],
}

impl Kind {
    /// The same of two terms.
    pub fn relation(self) -> Relation {
        match self {
            Kind::AtMost => Relation::AtMost,
            Kind::Equal => Relation::Equal,
            Kind::Unequal => Relation::Unequal,
        }
    }

    /// Whether a sum of this value compares so.
    pub fn holds(self, value: i128) -> bool {
        match self {
            Kind::AtMost => value <= 0,
            Kind::Equal => value == 0,
            Kind::Unequal => value != 0,
        }
    }
}

impl Sum {
    /// The sum that is always this number.
    pub fn constant(number: i128) -> Sum {
        let mut numbers = [0i128; 17];
        numbers[WIDTH] = number;
        Sum { numbers }
    }

    /// The sum of these multiples of arguments.
    pub fn of(parts: &[(usize, i128)]) -> Sum {
        let mut sum = Sum::constant(0);
        for (place, factor) in parts {
            if *place < WIDTH {
                sum.numbers[*place] = *factor;
            }
        }
        sum
    }

    /// The sum of these multiples of arguments; `None` where one isn't an integer, or isn't summed.
    pub fn of_integers(parts: &[(usize, i128)], sorts: &[Sort]) -> Option<Sum> {
        for (place, _) in parts {
            if *place >= WIDTH || sorts.get(*place) != Some(&Sort::Int) {
                return None;
            }
        }
        Some(Sum::of(parts))
    }

    /// The number in this column: an argument's coefficient, or the constant; 0 where there is no such column.
    pub fn at(&self, column: usize) -> i128 {
        match self.numbers.get(column) {
            Some(number) => *number,
            None => 0,
        }
    }

    /// Puts the number into the column, where there is such a column.
    pub fn set(&mut self, column: usize, number: i128) {
        if let Some(found) = self.numbers.get_mut(column) {
            *found = number;
        }
    }

    /// The sum and a multiple of another.
    pub fn with(self, other: &Sum, factor: i128) -> Sum {
        let mut sum = self;
        for place in 0..17usize {
            let more = other.numbers[place].saturating_mul(factor);
            sum.numbers[place] = sum.numbers[place].saturating_add(more);
        }
        sum
    }

    /// The opposite sum.
    pub fn opposite(&self) -> Sum {
        Sum::constant(0).with(self, -1)
    }

    /// The sum with this much added.
    pub fn plus(&self, number: i128) -> Sum {
        self.with(&Sum::constant(1), number)
    }

    /// The bound that the negation of this bound says.
    pub fn beyond(&self) -> Sum {
        self.opposite().plus(1)
    }

    /// The comparison with 0 that says the contrary.
    pub fn negation(&self, kind: Kind) -> (Kind, Sum) {
        match kind {
            Kind::AtMost => (Kind::AtMost, self.beyond()),
            Kind::Equal => (Kind::Unequal, *self),
            Kind::Unequal => (Kind::Equal, *self),
        }
    }

    /// The sum's value where the arguments are these numbers; `None` where it leaves the 128 bits.
    pub fn value(&self, numbers: &[i128]) -> Option<i128> {
        let mut value = self.numbers[WIDTH];
        for (coefficient, number) in self.numbers.iter().take(WIDTH).zip(numbers) {
            if *coefficient != 0 {
                let product = coefficient.checked_mul(*number)?;
                value = value.checked_add(product)?;
            }
        }
        Some(value)
    }

    /// Whether the two are the same sum.
    pub fn equals(&self, other: &Sum) -> bool {
        for place in 0..17usize {
            if self.numbers[place] != other.numbers[place] {
                return false;
            }
        }
        true
    }

    /// A number by which a comparison of the sum is found.
    pub fn key(&self, kind: Kind) -> u64 {
        let mut key = match kind {
            Kind::AtMost => 1,
            Kind::Equal => 2,
            Kind::Unequal => 3,
        };
        for number in &self.numbers {
            key = mixed(key, *number);
        }
        key
    }

    /// The sum divided by what divides all of its numbers.
    pub fn reduced(&self) -> Sum {
        self.divided(self.divisor(17).max(1))
    }

    /// The greatest common divisor of the numbers up to this place; 0 where all are 0, or one is too large.
    fn divisor(&self, count: usize) -> i128 {
        let mut divisor = 0u128;
        for number in self.numbers.iter().take(count) {
            if number.unsigned_abs() >= MOST {
                return 0;
            }
            divisor = common(divisor, number.unsigned_abs());
        }
        i128::try_from(divisor).unwrap_or(0)
    }

    /// The numbers divided, which they can be.
    fn divided(&self, divisor: i128) -> Sum {
        let mut sum = *self;
        for place in 0..17usize {
            sum.numbers[place] = sum.numbers[place].checked_div(divisor).unwrap_or(0);
        }
        sum
    }

    /// The sum with the least numbers whose comparison says the same over integers; an equality begins with a
    /// coefficient above 0. `None` where the comparison always holds or never, or numbers are too large.
    pub fn least(&self, kind: Kind) -> Option<Sum> {
        let divisor = self.divisor(WIDTH);
        let constant = self.numbers[WIDTH];
        if divisor == 0 || constant.unsigned_abs() >= MOST {
            return None;
        }
        if kind == Kind::AtMost {
            let mut least = self.divided(divisor);
            let turned = constant.saturating_neg();
            let rounded = turned.checked_div_euclid(divisor)?;
            least.numbers[WIDTH] = rounded.saturating_neg();
            return Some(least);
        }
        if constant.checked_rem(divisor)? != 0 {
            return None;
        }
        let factor = if self.is_turned() {
            divisor.saturating_neg()
        } else {
            divisor
        };
        Some(self.divided(factor))
    }

    /// Whether all coefficients are 0.
    fn is_constant(&self) -> bool {
        for number in self.numbers.iter().take(WIDTH) {
            if *number != 0 {
                return false;
            }
        }
        true
    }

    /// Whether the first number that isn't 0 is below it.
    fn is_turned(&self) -> bool {
        for number in &self.numbers {
            if *number != 0 {
                return *number < 0;
            }
        }
        false
    }

    /// The constant that stands on the left, and the one on the right; 0 stands for none.
    pub fn constants(&self) -> (i128, i128) {
        let mut has_left = false;
        let mut has_right = false;
        for number in self.numbers.iter().take(WIDTH) {
            has_left = has_left || *number > 0;
            has_right = has_right || *number < 0;
        }
        let constant = self.numbers[WIDTH];
        if (constant > 0 && has_right) || (constant < 0 && !has_left) {
            (constant, 0)
        } else {
            (0, constant.saturating_neg())
        }
    }

    /// Writes the side that has the coefficients of this sign, and the constant.
    pub fn write_side(
        &self,
        sign: i128,
        constant: i128,
        pool: &[i128],
        side: &mut Vec<Token>,
    ) -> Result<(), Want> {
        side.clear();
        let mut count = 0u32;
        let mut position = 0u32;
        for number in self.numbers.iter().take(WIDTH) {
            let factor = number.saturating_mul(sign);
            if factor > 0 {
                write_multiple(position, factor, pool, side)?;
                count = count.saturating_add(1);
            }
            position = position.saturating_add(1);
        }
        if constant != 0 || count == 0 {
            side.push(Token::Constant(Sort::Int, constant))?;
            count = count.saturating_add(1);
        }
        for _ in 1..count {
            side.push(Token::Apply(Op::Add, 2))?;
        }
        Ok(())
    }
}

/// Writes the multiple of the argument, by a factor above 0.
fn write_multiple(
    position: u32,
    factor: i128,
    pool: &[i128],
    side: &mut Vec<Token>,
) -> Result<(), Want> {
    let argument = Token::Variable(position);
    if factor == 1 {
        side.push(argument)?;
        return Ok(());
    }
    if factor <= 4 && !pool.contains(&factor) {
        side.push(argument)?;
        for _ in 1..factor {
            side.push(argument)?;
            side.push(Token::Apply(Op::Add, 2))?;
        }
        return Ok(());
    }
    side.push(Token::Constant(Sort::Int, factor))?;
    side.push(argument)?;
    side.push(Token::Apply(Op::Mul, 2))?;
    Ok(())
}

/// The greatest common divisor.
pub fn common(a: u128, b: u128) -> u128 {
    let mut x = a;
    let mut y = b;
    while y != 0 {
        let rest = x % y;
        x = y;
        y = rest;
    }
    x
}

/// The term as a sum of integer arguments; `None` where it isn't one.
pub(crate) fn sum_of(alloc: Global, tokens: &[Token], sorts: &[Sort]) -> Result<Option<Sum>, Want> {
    let mut stack = Vec::new(alloc);
    for token in tokens {
        let found = match token {
            Token::Constant(Sort::Int, number) => Some(Sum::constant(*number)),
            Token::Variable(position) => Sum::of_integers(&[(*position as usize, 1)], sorts),
            Token::Apply(operator, count) => applied(operator, *count, &mut stack),
            Token::Constant(_, _) => None,
        };
        match found {
            Some(sum) => stack.push(sum)?,
            None => return Ok(None),
        }
    }
    Ok(stack.pop())
}

/// The operator at the last sums.
fn applied(operator: &Op, count: u32, stack: &mut Vec<Sum>) -> Option<Sum> {
    let from = stack.len().saturating_sub(count as usize);
    let first = *stack.get(from)?;
    let mut sum = if operator.equals(&Op::Neg) {
        first.opposite()
    } else {
        first
    };
    for next in stack.iter().skip(from.saturating_add(1)) {
        sum = match operator {
            Op::Add => sum.with(next, 1),
            Op::Sub => sum.with(next, -1),
            Op::Mul if next.is_constant() => Sum::constant(0).with(&sum, next.numbers[WIDTH]),
            Op::Mul if sum.is_constant() => Sum::constant(0).with(next, sum.numbers[WIDTH]),
            _ => return None,
        };
    }
    stack.truncate(from);
    match operator {
        Op::Add | Op::Sub | Op::Neg | Op::Mul => Some(sum),
        _ => None,
    }
}
