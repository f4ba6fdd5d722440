// Comparisons of sums of few arguments, and of vectors.
ghost use Rattle.sy_grammar_base.specs.Fits.{ProblemFits};

use crate::atoms::Atoms;
use crate::setting::Setting;
use sy_loop_literals::{Compared, Kind, Order, Relation, Sum, Token};
use sy_terms::{Sort, Theory, Want};

/// How many pairs of vectors are compared.
const MOST_PAIRS: u32 = 60;

/// How many integers of the pool are factors.
const MOST_FACTORS: usize = 8;

/// How many arguments there are at most where sums of three are compared.
const MOST_SUMMED: usize = 6;

/// Numbers that nobody writes: a factor and a constant.
const STRANGE_FACTOR: i128 = 7_919;

const STRANGE_CONSTANT: i128 = 104_729;

impl Atoms {
    /// Adds the arguments that are truth values, and their negations.
    pub(crate) fn add_truths<T: Theory>(&mut self, setting: &Setting<T>) -> Result<(), Want>
        requires { ProblemFits T.Theory setting.now.problem.now }
    {
        for place in 0..self.shape.sorts.len() {
            if self.shape.sorts.get(place) == Some(&Sort::Bool) {
                self.sides.write_term(&[argument(place)])?;
                let plain = self.add_written(setting, true)?;
                self.sides.negate()?;
                let negation = self.add_written(setting, true)?;
                self.table.pair_up(plain, negation);
            }
        }
        Ok(())
    }

    /// Sees whether the grammar seems to have all comparisons of sums and their negations: it has those of one sum of
    /// all integer arguments with numbers that nobody writes.
    pub(crate) fn see_grammar<T: Theory>(&mut self, setting: &Setting<T>) -> Result<(), Want>
        requires { ProblemFits T.Theory setting.now.problem.now }
    {
        let Some(sum) = strange_sum(self.shape.sorts.as_slice()) else {
            return Ok(());
        };
        let has_bounds = self.has_both(setting, Kind::AtMost, &sum)?;
        let has_equalities = self.has_both(setting, Kind::Equal, &sum)?;
        self.free = has_bounds && has_equalities;
        Ok(())
    }

    /// Whether the grammar has the comparison of the sum with 0, and its negation.
    fn has_both<T: Theory>(
        &mut self,
        setting: &Setting<T>,
        kind: Kind,
        sum: &Sum,
    ) -> Result<bool, Want>
        requires { ProblemFits T.Theory setting.now.problem.now }
    {
        let found = self.write_form(setting, kind, sum)?;
        let (contrary, other) = sum.negation(kind);
        let negation = self.write_form(setting, contrary, &other)?;
        Ok(found.is_some() && negation.is_some())
    }

    /// Adds comparisons of one and two arguments with the constants, and of two vectors of one width.
    pub(crate) fn add_pairs<T: Theory>(&mut self, setting: &Setting<T>) -> Result<(), Want>
        requires { ProblemFits T.Theory setting.now.problem.now }
    {
        let mut left = MOST_PAIRS;
        for x in 0..self.shape.sorts.len() {
            self.shape.add_sum(&[(x, 1)])?;
            for y in 0..x {
                self.shape.add_sum(&[(y, 1), (x, -1)])?;
                self.shape.add_sum(&[(y, 1), (x, 1)])?;
                if left > 0 && self.shape.are_vectors(x, y) {
                    left -= 1;
                    self.add_vectors(setting, y, x)?;
                }
            }
        }
        self.add_compared_sums(setting)
    }

    /// Adds what can be said of two vectors.
    fn add_vectors<T: Theory>(
        &mut self,
        setting: &Setting<T>,
        x: usize,
        y: usize,
    ) -> Result<(), Want>
        requires { ProblemFits T.Theory setting.now.problem.now }
    {
        let compared = Compared {
            relation: Relation::Equal,
            order: Order::Unsigned,
            first: &[argument(x)],
            second: &[argument(y)],
        };
        self.add_all(setting, &compared, false)
    }

    /// Adds all that can be said of the two terms.
    pub(crate) fn add_all<T: Theory>(
        &mut self,
        setting: &Setting<T>,
        compared: &Compared,
        program: bool,
    ) -> Result<(), Want>
        requires { ProblemFits T.Theory setting.now.problem.now }
    {
        let equality = compared.with(Relation::Equal);
        self.related(setting, &equality, program)?;
        self.related(setting, &equality.negation(), program)?;
        for relation in [Relation::AtMost, Relation::Less] {
            self.related(setting, &compared.with(relation), program)?;
        }
        for relation in [Relation::AtMost, Relation::Less] {
            self.related(setting, &compared.turned().with(relation), program)?;
        }
        Ok(())
    }

    /// Adds the comparisons of the sums of one and two arguments with the constants, and their negations.
    fn add_compared_sums<T: Theory>(&mut self, setting: &Setting<T>) -> Result<(), Want>
        requires { ProblemFits T.Theory setting.now.problem.now }
    {
        for place in 0..self.shape.sums.len() {
            for number in 0..self.shape.constants.len() {
                if let Some(sum) = self.shape.difference(place, number) {
                    self.add_both(setting, Kind::AtMost, &sum, false)?;
                    self.add_both(setting, Kind::AtMost, &sum.opposite(), false)?;
                    self.add_both(setting, Kind::Equal, &sum, false)?;
                }
            }
        }
        Ok(())
    }

    /// Adds comparisons of sums of three arguments, and of two with other factors, where there are few arguments and
    /// the grammar has all comparisons.
    pub fn add_forms<T: Theory>(&mut self, setting: &Setting<T>) -> Result<(), Want>
        requires { ProblemFits T.Theory setting.now.problem.now }
    {
        let count = self.shape.sorts.len();
        if !self.free || count > MOST_SUMMED {
            return Ok(());
        }
        for x in 0..count {
            for y in 0..x {
                self.add_doubles(setting, x, y)?;
                self.add_doubles(setting, y, x)?;
                for z in 0..y {
                    self.add_threes(setting, [z, y, x])?;
                }
            }
        }
        Ok(())
    }

    /// Adds comparisons of the sum of one argument and a multiple of another: by 2, and by up to eight integers of the
    /// pool.
    fn add_doubles<T: Theory>(
        &mut self,
        setting: &Setting<T>,
        x: usize,
        y: usize,
    ) -> Result<(), Want>
        requires { ProblemFits T.Theory setting.now.problem.now }
    {
        self.add_plain(setting, &[(x, 1), (y, 2)], &[0, 1, -1])?;
        self.add_plain(setting, &[(x, 1), (y, -2)], &[0, 1, -1])?;
        for number in 0..MOST_FACTORS {
            let factor = self.shape.factor(number);
            if factor > 2 {
                self.add_plain(setting, &[(x, 1), (y, factor.saturating_neg())], &[0])?;
            }
        }
        Ok(())
    }

    /// Adds comparisons of sums and differences of the three arguments.
    fn add_threes<T: Theory>(
        &mut self,
        setting: &Setting<T>,
        places: [usize; 3],
    ) -> Result<(), Want>
        requires { ProblemFits T.Theory setting.now.problem.now }
    {
        let [z, y, x] = places;
        for (a, b) in [(-1, -1), (1, -1), (-1, 1), (1, 1)] {
            self.add_plain(setting, &[(z, 1), (y, a), (x, b)], &[0, 1, -1])?;
        }
        Ok(())
    }

    /// Adds the comparisons of the sum with the numbers, without their negations.
    fn add_plain<T: Theory>(
        &mut self,
        setting: &Setting<T>,
        parts: &[(usize, i128)],
        numbers: &[i128],
    ) -> Result<(), Want>
        requires { ProblemFits T.Theory setting.now.problem.now }
    {
        let Some(whole) = Sum::of_integers(parts, self.shape.sorts.as_slice()) else {
            return Ok(());
        };
        for number in numbers {
            let sum = whole.plus(number.saturating_neg());
            self.add_form(setting, Kind::AtMost, &sum, false)?;
            self.add_form(setting, Kind::AtMost, &sum.opposite(), false)?;
            self.add_form(setting, Kind::Equal, &sum, false)?;
        }
        Ok(())
    }
}

/// The argument.
fn argument(place: usize) -> Token {
    Token::Variable(u32::try_from(place).unwrap_or(u32::MAX))
}

/// A sum of all integer arguments with numbers that nobody writes; `None` where there are none.
fn strange_sum(sorts: &[Sort]) -> Option<Sum> {
    let mut sum = Sum::constant(STRANGE_CONSTANT);
    let mut factor = STRANGE_FACTOR;
    for place in 0..sorts.len() {
        if let Some(argument) = Sum::of_integers(&[(place, 1)], sorts) {
            sum = sum.with(&argument, factor);
            factor = if factor == 1 { -1 } else { 1 };
        }
    }
    if factor == STRANGE_FACTOR {
        None
    } else {
        Some(sum)
    }
}
