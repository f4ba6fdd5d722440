// Literals as terms.
ghost use Rattle.std.specs.Prelude.{◌≡◌, ◌^◌, min, true};
ghost use Rattle.std.specs.Option.{option_map};
ghost use Rattle.std.specs.List.{list_all};
ghost use Rattle.sy_text_items.specs.Lexicon.{digit, digit_value, value_in};
ghost use Rattle.sy_forms_items.specs.Meant.{typed_of};
ghost use Rattle.sy_forms_items.specs.Readings.{ReadingGives};
ghost use Rattle.sy_terms.specs.Logics.{Serves};
ghost use Rattle.sy_forms.specs.Terms as spec;
ghost use Rattle.sy_forms_items.specs.Views.{indexed_of};

use sy_forms_items::{Indices, ReadEnd, Typed, is_width, literal};
use sy_scope_causes::Cause;
use sy_terms::{Logic, Sort, Theory, Value};
use sy_text_items::{Name, Place};

/// From here on a number is no literal of any sort.
const CAP: u128 = 1 << 127;

/// The literal of the sort that a number stands for.
pub(crate) fn number_as<T: Theory>(place: Place, sort: Sort, n: u128) -> Result<Typed<T>, ReadEnd>
    requires { T.numeric sort ≡ true }
    ensures { ReadingGives (typed_of T.denotes) result (spec.number_as place sort n) }
{
    if n >= CAP {
        return Err(ReadEnd::Refused(place, Cause::LiteralRange));
    }
    match T::of_number(sort, n as i128) {
        Some(number) => Ok(literal(Value::Num(number), sort)),
        None => Err(ReadEnd::Refused(place, Cause::LiteralRange)),
    }
}

/// A numeral: an integer in LIA.
pub(crate) fn numeral_term<T: Theory>(
    logic: Logic,
    place: Place,
    n: u128,
) -> Result<Typed<T>, ReadEnd>
    requires { Serves T.numeric logic }
    ensures { ReadingGives (typed_of T.denotes) result (spec.numeral_term logic place n) }
{
    match logic {
        Logic::Lia => number_as(place, Sort::Int, n),
        Logic::Bv => Err(ReadEnd::Refused(place, Cause::SortMismatch)),
    }
}

/// A vector literal: a vector in BV.
pub(crate) fn vector_term<T: Theory>(
    logic: Logic,
    place: Place,
    width: u8,
    n: u64,
) -> Result<Typed<T>, ReadEnd>
    requires { Serves T.numeric logic }
    ensures { ReadingGives (typed_of T.denotes) result (spec.vector_term logic place width n) }
{
    match logic {
        Logic::Lia => Err(ReadEnd::Refused(place, Cause::SortMismatch)),
        Logic::Bv => number_as(place, Sort::Bits(width), u128::from(n)),
    }
}

#[tactic(auto, unfolding(sy_text_items::specs::Lexicon::digit))]
fn is_digit(b: u8) -> bool
    ensures { result ≡ digit b }
{
    !(b < 48) && !(57 < b)
}

#[tactic(auto, unfolding(sy_text_items::specs::Lexicon::digit_value))]
fn value_of_digit(b: u8) -> u8
    ensures { result ≡ digit_value b }
{
    if b < 58 {
        b.saturating_sub(48)
    } else if b < 71 {
        b - 55
    } else {
        b.saturating_sub(87)
    }
}

/// Whether these are `0`, or digits of which the first isn't `0`.
fn is_number(digits: &[u8]) -> bool
    ensures { result ≡ spec.is_number digits.now }
{
    match digits {
        [] => false,
        [digit] => is_digit(*digit),
        [first, ..] => *first != 48 && are_digits(digits),
    }
}

fn are_digits(bytes: &[u8]) -> bool
    ensures { result ≡ list_all digit bytes.now }
{
    bytes.iter().all(|b| is_digit(*b))
}

/// The number that the digits stand for, at most two to the 127th.
fn capped_value(digits: &[u8]) -> u128
    ensures { result ≡ min (2 ^ 127) (value_in 10 digits.now) }
{
    let mut value = 0u128;
    for digit in digits {
        let next = u128::from(value_of_digit(*digit));
        value = value.saturating_mul(10).saturating_add(next).min(CAP);
    }
    value
}

/// The N of `bvN`, at most two to the 127th.
fn bv_number(name: &[u8]) -> Option<u128>
    ensures { result ≡ option_map (min (2 ^ 127)) (spec.bv_number name.now) }
{
    match name {
        [b, v, digits @ ..] => {
            if *b == 98 && *v == 118 && is_number(digits) {
                Some(capped_value(digits))
            } else {
                None
            }
        }
        _ => None,
    }
}

/// The vector `(_ bvN w)`.
fn bv_literal<T: Theory>(
    place: Place,
    number: Option<u128>,
    indices: Indices,
) -> Result<Typed<T>, ReadEnd>
    requires { Serves T.numeric Logic.Bv }
    ensures { ReadingGives (typed_of T.denotes) result (spec.bv_literal place number indices) }
{
    match (number, indices) {
        (Some(n), Indices::One(width)) => {
            if is_width(width) {
                number_as(place, Sort::Bits(width as u8), n)
            } else {
                Err(ReadEnd::Refused(place, Cause::Width))
            }
        }
        _ => Err(ReadEnd::Refused(place, Cause::UnknownName)),
    }
}

/// A list that begins with `_`, as a term.
pub(crate) fn indexed_term<T: Theory>(
    logic: Logic,
    place: Place,
    indexed: Option<(&Name, Indices)>,
) -> Result<Typed<T>, ReadEnd>
    requires { Serves T.numeric logic }
    ensures { ReadingGives (typed_of T.denotes) result
        (spec.indexed_term logic place (option_map indexed_of indexed.entry)) }
{
    let Some((name, indices)) = indexed else {
        return Err(ReadEnd::Refused(place, Cause::Shape));
    };
    match logic {
        Logic::Lia => Err(ReadEnd::Refused(place, Cause::UnknownName)),
        Logic::Bv => bv_literal(place, bv_number(name.as_slice()), indices),
    }
}
