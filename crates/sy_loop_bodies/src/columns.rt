// Values of kept terms at argument tuples.
ghost use Rattle.sy_grammar_base.specs.Fits.{ProblemFits};

use crate::body::Task;
use sy_bank_level::{Bank, Kept};
use sy_grammar_sizes::number_of;
use sy_meaning::{Eval, evaluate, term_sort, value_sorts};
use sy_terms::{Term, Theory, Value, Values, Want, same_values};

/// For each nonterminal of the one function's grammar the values of its kept terms at the tuple as numbers, by size and
/// then in the order in which they were found. What isn't computable there counts as 0.
pub(crate) fn columns<T: Theory>(
    task: &Task<T>,
    bank: &Bank<T>,
    tuple: &[Value<T::Num>],
) -> Result<Vec<Vec<i128>>, Want>
    requires { ProblemFits T.Theory task.now.problem.now }
{
    let mut columns = Vec::new(task.alloc);
    let Some(wanted) = task.problem.wanted.get(0) else {
        return Ok(columns);
    };
    let point = point_of::<T>(bank.points(), tuple);
    let mut nonterminal = 0u32;
    for _ in wanted.grammar.nons().as_slice() {
        let numbers = column(task, bank, nonterminal, point, tuple)?;
        columns.push(numbers)?;
        nonterminal = nonterminal.saturating_add(1);
    }
    Ok(columns)
}

/// Where the tuple stands among the points.
pub fn point_of<T: Theory>(points: &[Values<T>], tuple: &[Value<T::Num>]) -> Option<usize> {
    for point in 0..points.len() {
        if same_values::<T>(points[point].as_slice(), tuple) {
            return Some(point);
        }
    }
    None
}

/// The values of the nonterminal's kept terms at the tuple, which is this point of the bank where it is one.
fn column<T: Theory>(
    task: &Task<T>,
    bank: &Bank<T>,
    nonterminal: u32,
    point: Option<usize>,
    tuple: &[Value<T::Num>],
) -> Result<Vec<i128>, Want>
    requires { ProblemFits T.Theory task.now.problem.now }
{
    let mut numbers = Vec::new(task.alloc);
    for size in 0..u64::from(bank.upto()) + 1 {
        for kept in bank.kept(nonterminal, size as u32) {
            let number = match point {
                Some(point) => number_in::<T>(kept.row.as_slice(), point),
                None => number_at(task, kept, tuple)?,
            };
            numbers.push(number)?;
        }
    }
    Ok(numbers)
}

/// The value at this point of a row; 0 where there is none.
fn number_in<T: Theory>(row: &[Value<T::Num>], point: usize) -> i128 {
    match row.get(point) {
        Some(value) => number::<T>(value),
        None => 0,
    }
}

/// The value of the kept term at the tuple; 0 where it isn't computable there.
fn number_at<T: Theory>(
    task: &Task<T>,
    kept: &Kept<T>,
    tuple: &[Value<T::Num>],
) -> Result<i128, Want>
    requires { ProblemFits T.Theory task.now.problem.now }
{
    let term = kept.term(task.alloc)?;
    term_number(task, &term, tuple)
}

/// The value of the term at the tuple; 0 where it isn't computable there.
fn term_number<T: Theory>(
    task: &Task<T>,
    term: &Term<T>,
    tuple: &[Value<T::Num>],
) -> Result<i128, Want>
    requires { ProblemFits T.Theory task.now.problem.now }
{
    let alloc = task.alloc;
    let Some(sorts) = value_sorts::<T>(alloc, tuple)? else {
        return Ok(0);
    };
    let defs = task.problem.defs.as_slice();
    let Some(_) = term_sort(alloc, defs, &[], sorts.as_slice(), term)? else {
        return Ok(0);
    };
    match evaluate(alloc, &task.problem.defs, tuple, term) {
        Ok(value) => Ok(number::<T>(&value)),
        Err(Eval::Range) => Ok(0),
        Err(Eval::Want) => Err(Want {}),
    }
}

/// The value as a number: a truth value is 0 or 1.
pub fn number<T: Theory>(value: &Value<T::Num>) -> i128 {
    match value {
        Value::Truth(truth) => i128::from(*truth),
        Value::Num(_) => number_of::<T>(value),
    }
}
