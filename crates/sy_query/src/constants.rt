// The constants of a query.
use std::alloc::Global;
use sy_terms::{Term, Terms, Theory, Value, Want};

/// The most constants that are kept.
const MOST: usize = 6;

/// The numbers of a term's first few constants, each once.
pub(crate) fn constants_of<T: Theory>(alloc: Global, term: &Term<T>) -> Result<Vec<i128>, Want> {
    let mut numbers = Vec::new(alloc);
    gather(term, &mut numbers)?;
    Ok(numbers)
}

/// Adds the numbers of the term's constants.
#[cycle(gather)]
fn gather<T: Theory>(term: &Term<T>, numbers: &mut Vec<i128>) -> Result<(), Want> {
    match term {
        Term::Const(value) => note::<T>(value, numbers),
        Term::Var(_) => Ok(()),
        Term::App(_, arguments) => gather_all(arguments, numbers),
        Term::Call(_, arguments) => gather_all(arguments, numbers),
        Term::Let(bound, inner) => {
            gather_all(bound, numbers)?;
            gather(inner, numbers)
        }
    }
}

/// Adds the numbers of the terms' constants.
#[cycle(gather)]
fn gather_all<T: Theory>(terms: &Terms<T>, numbers: &mut Vec<i128>) -> Result<(), Want> {
    for term in terms.as_slice() {
        gather(term, numbers)?;
    }
    Ok(())
}

/// Adds the value's number, unless it is there or enough are.
fn note<T: Theory>(value: &Value<T::Num>, numbers: &mut Vec<i128>) -> Result<(), Want> {
    if let Value::Num(number) = value {
        let number = T::number(*number);
        if numbers.len() < MOST && !numbers.contains(&number) {
            numbers.push(number)?;
        }
    }
    Ok(())
}
