// How far facts are from being met at a point: guesses, of which nothing is proved.
use std::alloc::Global;
use sy_frac::Frac;
use sy_linear_known::{Fact, Form};
use sy_seq::Want;

/// The greatest common denominator that is tried.
const GREATEST: i128 = 1 << 40;

/// A point's numbers, times a common denominator.
#[derive(Drop)]
struct Scaled {
    numbers: Vec<i128>,
    denominator: i128,
}

/// A multiple of both numbers, where it isn't large.
fn multiple(first: i128, second: i128) -> Option<i128> {
    if first.checked_rem(second)? == 0 {
        return Some(first);
    }
    let product = first.checked_mul(second)?;
    if product <= GREATEST {
        Some(product)
    } else {
        None
    }
}

/// A common denominator of the point's numbers, where it isn't large.
fn denominator(point: &[Frac]) -> Option<i128> {
    let mut common = 1i128;
    for number in point {
        common = multiple(common, number.den())?;
    }
    Some(common)
}

/// The number times the denominator.
fn times(number: &Frac, denominator: i128) -> Option<i128> {
    let factor = denominator.checked_div(number.den())?;
    number.num().checked_mul(factor)
}

/// The point's numbers times a common denominator, where all fit.
fn times_common(alloc: Global, point: &[Frac]) -> Result<Option<Scaled>, Want> {
    let Some(denominator) = denominator(point) else {
        return Ok(None);
    };
    let mut numbers = Vec::new(alloc);
    for number in point {
        let Some(product) = times(number, denominator) else {
            return Ok(None);
        };
        numbers.push(product)?;
    }
    Ok(Some(Scaled {
        numbers,
        denominator,
    }))
}

/// The form's value times the denominator, where it fits.
fn value_at(form: &Form, point: &Scaled) -> Option<i128> {
    let mut sum = form.constant.checked_mul(point.denominator)?;
    for coefficient in form.coefs.as_slice() {
        let number = *point.numbers.get(coefficient.0 as usize)?;
        sum = sum.checked_add(coefficient.1.checked_mul(number)?)?;
    }
    Some(sum)
}

/// The form's value times the denominator, where the fact is on a form and the value fits, else 0.
fn measure(fact: &Fact, point: &Scaled) -> i128 {
    match fact {
        Fact::AtLeast(form) => value_at(form, point).unwrap_or(0),
        Fact::Is(_, _) => 0,
    }
}

/// The place of a fact whose form is least at the point, where it is negative.
pub(crate) fn worst(alloc: Global, facts: &[Fact], point: &[Frac]) -> Result<Option<usize>, Want> {
    let Some(point) = times_common(alloc, point)? else {
        return Ok(None);
    };
    let mut least = 0i128;
    let mut found = None;
    for place in 0..facts.len() {
        let number = measure(&facts[place], &point);
        if number < least {
            least = number;
            found = Some(place);
        }
    }
    Ok(found)
}
