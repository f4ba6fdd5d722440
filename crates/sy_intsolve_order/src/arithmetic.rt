// Forms of sums, differences and products, where 128 bits hold their numbers.
use std::alloc::Global;
use sy_linear_known::Form;
use sy_seq::{Seq, Want};

/// A variable's number and its coefficient.
type Coefficient = (u32, i128);

/// Appends the coefficient, where it isn't 0; whether there is one.
fn push(list: &mut Seq<Coefficient>, variable: u32, number: Option<i128>) -> Result<bool, Want> {
    let Some(number) = number else {
        return Ok(false);
    };
    if number != 0 {
        list.push((variable, number))?;
    }
    Ok(true)
}

/// The first number, and the second so many times.
fn total(first: i128, factor: i128, second: i128) -> Option<i128> {
    first.checked_add(factor.checked_mul(second)?)
}

/// Appends the coefficients so many times; whether they fit.
fn push_all(
    list: &mut Seq<Coefficient>,
    factor: i128,
    coefs: &[Coefficient],
) -> Result<bool, Want> {
    for coefficient in coefs {
        if !push(list, coefficient.0, factor.checked_mul(coefficient.1))? {
            return Ok(false);
        }
    }
    Ok(true)
}

/// The lesser variable of the two coefficients, and its coefficient in the sum of the first and so many times the
/// second.
fn least(first: Coefficient, factor: i128, second: Coefficient) -> (u32, Option<i128>) {
    let (variable, number) = first;
    let (other, addend) = second;
    if variable < other {
        (variable, Some(number))
    } else if other < variable {
        (other, factor.checked_mul(addend))
    } else {
        (variable, total(number, factor, addend))
    }
}

/// Appends the coefficients of the first list, and those of the second so many times; whether they fit.
fn merge(
    list: &mut Seq<Coefficient>,
    first: &[Coefficient],
    factor: i128,
    second: &[Coefficient],
) -> Result<bool, Want> {
    let mut i = 0;
    let mut j = 0;
    while i < first.len() && j < second.len() {
        let (one, other) = (first[i], second[j]);
        let (variable, number) = least(one, factor, other);
        if !push(list, variable, number)? {
            return Ok(false);
        }
        if one.0 <= other.0 {
            i += 1;
        }
        if other.0 <= one.0 {
            j += 1;
        }
    }
    if !push_all(list, 1, &first[i..])? {
        return Ok(false);
    }
    push_all(list, factor, &second[j..])
}

/// The form of the coefficients and the constant, where they fit.
fn finished(
    coefs: Seq<Coefficient>,
    constant: i128,
    fits: Result<bool, Want>,
) -> Result<Option<Form>, Want> {
    match fits {
        Ok(true) => Ok(Some(Form { coefs, constant })),
        Ok(false) => {
            drop(coefs);
            Ok(None)
        }
        Err(want) => {
            drop(coefs);
            Err(want)
        }
    }
}

/// The first number, the second so many times, and the third.
fn total_of_three(first: i128, factor: i128, second: i128, third: i128) -> Option<i128> {
    total(first, factor, second)?.checked_add(third)
}

/// The first form, the second so many times, and the number; none where it doesn't fit.
pub(crate) fn combined(
    alloc: Global,
    first: &Form,
    factor: i128,
    second: &Form,
    number: i128,
) -> Result<Option<Form>, Want> {
    let Some(constant) = total_of_three(first.constant, factor, second.constant, number) else {
        return Ok(None);
    };
    let mut coefs = Seq::new(alloc);
    let fits = merge(
        &mut coefs,
        first.coefs.as_slice(),
        factor,
        second.coefs.as_slice(),
    );
    finished(coefs, constant, fits)
}

/// The form so many times, and the number; none where it doesn't fit.
pub(crate) fn scaled(
    alloc: Global,
    factor: i128,
    form: &Form,
    number: i128,
) -> Result<Option<Form>, Want> {
    let Some(constant) = total(number, factor, form.constant) else {
        return Ok(None);
    };
    let mut coefs = Seq::new(alloc);
    let fits = push_all(&mut coefs, factor, form.coefs.as_slice());
    finished(coefs, constant, fits)
}

/// The form that is at least 0 exactly where this one isn't; none where it doesn't fit.
pub(crate) fn negation(alloc: Global, form: &Form) -> Result<Option<Form>, Want> {
    scaled(alloc, -1, form, -1)
}

/// Whether the form's first coefficient is negative.
pub(crate) fn is_downward(form: &Form) -> bool {
    match form.coefs.as_slice().split_first() {
        Some((first, _)) => first.1 < 0,
        None => false,
    }
}
