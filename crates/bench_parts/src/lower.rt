// The lowering of a query: the word is the number of divisions. The query says that the sum of the quotients of one
// variable by 2, 3 and so on is 0. It prints the number of variables of the lowering.
use crate::words::{WANT, number};
use std::alloc::Global;
use sy_lower::lower;
use sy_meaning_integers::IntTheory;
use sy_query_base::Query;
use sy_terms::{Op, Seq, Sort, Term, Terms, Value, Want};

/// The number as a term.
fn constant(value: i128) -> Term<IntTheory> {
    Term::Const(Value::Num(value))
}

/// The operator at two terms.
fn binary(
    alloc: Global,
    operator: Op,
    first: Term<IntTheory>,
    second: Term<IntTheory>,
) -> Result<Term<IntTheory>, Want> {
    let mut arguments = Terms::with_capacity(alloc, 2)?;
    arguments.push(first)?;
    arguments.push(second)?;
    Ok(Term::App(operator, arguments))
}

/// The quotients of the variable by so many numbers.
fn quotients(alloc: Global, count: u32) -> Result<Terms<IntTheory>, Want> {
    let mut quotients = Terms::new(alloc);
    for number in 0..count {
        let divisor = constant(i128::from(number) + 2);
        let quotient = binary(alloc, Op::Div, Term::Var(0), divisor)?;
        quotients.push(quotient)?;
    }
    Ok(quotients)
}

/// The query of so many divisions.
fn asked(alloc: Global, count: u32) -> Result<Query<IntTheory>, Want> {
    let sum = Term::App(Op::Add, quotients(alloc, count)?);
    let body = binary(alloc, Op::Equal, sum, constant(0))?;
    let mut vars = Seq::new(alloc);
    vars.push(Sort::Int)?;
    Ok(Query { vars, body })
}

/// How many variables the lowering has.
fn variables(alloc: Global, count: u32) -> Result<usize, Want> {
    let query = asked(alloc, count)?;
    let lowered = lower(alloc, &query)?;
    Ok(lowered.vars.len())
}

/// Lowers the query that the words ask for, and prints how many variables its lowering has.
pub(crate) fn run(rt: &HostRuntime, words: &[String]) -> u8 {
    match variables(rt.alloc(), number(words, 1)) {
        Ok(count) => {
            let _ = println!(rt; "{count}");
            0
        }
        Err(_) => WANT,
    }
}
