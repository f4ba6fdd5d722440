// Exact arithmetic.
use crate::rows::field;
use std::alloc::Global;
use std::cmp::Ordering;
use std::process::Abort;
use sy_frac::Frac;
use sy_terms::{Seq, Want};

/// The fraction of this text, as `1/2` or `3`.
fn fraction(text: &str) -> Option<Frac> {
    let (num, den) = text.split_once('/').unwrap_or((text, "1"));
    Frac::new(num.parse().unwrap_or(0), den.parse().unwrap_or(0))
}

/// The fractions of this text, with spaces between them.
pub fn fractions(rt: &impl Abort, alloc: Global, text: &str) -> Seq<Frac> {
    let mut all = Seq::new(alloc);
    for word in text.split(' ') {
        if let Some(fraction) = fraction(word) {
            all.push(fraction).expect(rt, "memory");
        }
    }
    all
}

/// The quotient; none where the divisor is 0.
fn quotient(first: &Frac, second: &Frac) -> Option<Frac> {
    if second.num() == 0 {
        return None;
    }
    first.div(second)
}

/// What the comparison of two fractions tells.
fn order(first: &Frac, second: &Frac) -> &'static str {
    match first.compare(second) {
        Some(Ordering::Less) => "less",
        Some(Ordering::Equal) => "equal",
        Some(Ordering::Greater) => "greater",
        None => "none",
    }
}

/// What a row asks of two fractions: `is` for the first of them in lowest terms.
pub fn told(alloc: Global, row: &str) -> Result<String, Want> {
    let (Some(first), Some(second)) = (fraction(field(row, 0)), fraction(field(row, 2))) else {
        return String::from_str(alloc, "none");
    };
    let found = match field(row, 1) {
        "+" => first.add(&second),
        "-" => first.sub(&second),
        "*" => first.mul(&second),
        "/" => quotient(&first, &second),
        "is" => Some(first),
        "floor and ceiling" => {
            let (floor, ceil) = (first.floor(), first.ceil());
            return format!(in alloc; "{floor} {ceil}");
        }
        _ => return String::from_str(alloc, order(&first, &second)),
    };
    let Some(found) = found else {
        return String::from_str(alloc, "none");
    };
    let (num, den) = (found.num(), found.den());
    format!(in alloc; "{num}/{den}")
}

/// A fraction, what is done, another fraction, and what comes of it.
pub const ROWS: &str = "\
6/4|is|1|3/2
6/-4|is|1|-3/2
-6/-4|is|1|3/2
0/-5|is|1|0/1
1/0|is|1|none
-170141183460469231731687303715884105728/1|is|1|none
1/-170141183460469231731687303715884105728|is|1|none
170141183460469231731687303715884105727/-170141183460469231731687303715884105727|is|1|-1/1
1/2|+|1/3|5/6
1/2|+|-1/3|1/6
1/2|-|-1/3|5/6
1/2|*|-1/3|-1/6
1/2|/|-1/3|-3/2
1/2|to|-1/3|greater
-1/3|to|1/2|less
1/2|to|1/2|equal
170141183460469231731687303715884105727|+|1|none
-170141183460469231731687303715884105727|-|1|none
170141183460469231731687303715884105727|*|170141183460469231731687303715884105727|none
1/170141183460469231731687303715884105727|/|170141183460469231731687303715884105727|none
170141183460469231731687303715884105727|to|1/2|none
170141183460469231731687303715884105727|*|1/170141183460469231731687303715884105727|1/1
7/2|floor and ceiling|1|3 4
-7/2|floor and ceiling|1|-4 -3
6/2|floor and ceiling|1|3 3
-6/2|floor and ceiling|1|-3 -3
0/1|floor and ceiling|1|0 0
-1/3|floor and ceiling|1|-1 0
";
