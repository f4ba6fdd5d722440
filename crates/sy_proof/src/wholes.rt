// Whole numbers and fractions as items.
ghost use Rattle.std.specs.Prelude.{◌≡◌, ◌^◌, ◌≤ℤ◌, pos, All, IfOk};
ghost use Rattle.std.specs.Option.{option_map};
ghost use Rattle.sy_text_items.specs.Views.{item_of};
ghost use Rattle.sy_forms_items.specs.Parts as parts;
ghost use Rattle.sy_forms_items.specs.Views.{items_in};
ghost use Rattle.sy_frac.specs.Fraction.{IsLowest};
ghost use Rattle.sy_proof.specs.Lists.{below, each_in, Finds};
ghost use Rattle.sy_proof.specs.Numbers as spec;
ghost use Rattle.sy_proof.specs.Numbers.{fraction_in, parts_of};

use crate::words::two;
use std::alloc::Global;
use sy_forms_items::{Rest, is, is_symbol, numeral};
use sy_frac::Frac;
use sy_seq::{Seq, Want};
use sy_text_items::{Atom, Sexp};

/// The number below 2^127 that the item is.
fn magnitude(item: &Sexp) -> Option<i128>
    ensures { result ≡ option_map pos (below (2 ^ 127) (parts.numeral (item_of item.now))) }
{
    match numeral(item) {
        Some(n) => i128::try_from(n).ok(),
        None => None,
    }
}

/// The whole number that the item is: a numeral, `(- n)` with n at least 1, or `min` for -2^127; `None` exactly where
/// it is none of 128 bits.
pub(crate) fn whole(item: &Sexp) -> Option<i128>
    ensures { result ≡ spec.whole_in (item_of item.now) }
{
    match item {
        Sexp::Atom(atom, _) => whole_atom(atom),
        Sexp::List(parts, _) => negative(Rest::all(parts)),
    }
}

/// The number that a numeral is, or `min`.
fn whole_atom(atom: &Atom) -> Option<i128>
    ensures { result ≡ spec.whole_atom atom.now }
{
    match atom {
        Atom::Numeral(n) => i128::try_from(*n).ok(),
        Atom::Symbol(word) => {
            if is(word.as_slice(), b"min") {
                Some(i128::MIN)
            } else {
                None
            }
        }
        Atom::Keyword(_) => None,
        Atom::Decimal(_) => None,
        Atom::Bits(_, _) => None,
        Atom::Text(_) => None,
    }
}

/// The number below 0 that `-` and a numeral above 0 are.
fn negative(items: Rest<'_>) -> Option<i128>
    ensures { result ≡ spec.negative_in (items_in items.entry) }
{
    let Some((sign, number)) = two(items) else {
        return None;
    };
    if !is_symbol(sign, b"-") {
        return None;
    }
    let number = magnitude(number)?;
    opposite(number)
}

/// The opposite of a number above 0.
fn opposite(number: i128) -> Option<i128>
    requires { pos 0 ≤ℤ number }
    ensures { result ≡ spec.opposite number }
{
    if number == 0 { None } else { Some(-number) }
}

/// The fraction that the item is: a whole number, or `(/ a b)` in lowest terms with b at least 2; `None` exactly where
/// it is none whose numbers fit.
pub(crate) fn fraction(item: &Sexp) -> Option<Frac>
    ensures { Finds IsLowest (fraction_in (item_of item.now)) result }
{
    let (num, den) = quotient(item)?;
    let fraction = Frac::new(num, den)?;
    if fraction.num() == num && fraction.den() == den {
        Some(fraction)
    } else {
        None
    }
}

/// The numerator and the denominator.
fn quotient(item: &Sexp) -> Option<(i128, i128)>
    ensures { result ≡ option_map parts_of (fraction_in (item_of item.now)) }
{
    match whole(item) {
        Some(number) => Some((number, 1)),
        None => match item {
            Sexp::Atom(_, _) => None,
            Sexp::List(parts, _) => divided(Rest::all(parts)),
        },
    }
}

/// The numerator and the denominator behind `/`.
fn divided(items: Rest<'_>) -> Option<(i128, i128)>
    ensures { result ≡ option_map parts_of (spec.quotient_in (items_in items.entry)) }
{
    let Some((sign, rest)) = items.split() else {
        return None;
    };
    let Some((upper, lower)) = two(rest) else {
        return None;
    };
    if !is_symbol(sign, b"/") {
        return None;
    }
    let num = whole(upper)?;
    let den = denominator(lower)?;
    Some((num, den))
}

/// The denominator that the item is, at least 2.
fn denominator(item: &Sexp) -> Option<i128>
    ensures { result ≡ option_map pos (spec.denominator_in (item_of item.now)) }
{
    let den = magnitude(item)?;
    if den > 1 { Some(den) } else { None }
}

/// The fractions that the items are; `None` exactly where one is none.
pub(crate) fn fractions(alloc: Global, items: Rest<'_>) -> Result<Option<Seq<Frac>>, Want>
    ensures { IfOk result (λ found. Finds (All IsLowest) (each_in fraction_in (items_in items.entry)) found) }
{
    let mut fractions = Seq::new(alloc);
    let mut left = items;
    while let Some((item, rest)) = left.split() {
        let Some(fraction) = fraction(item) else {
            return Ok(None);
        };
        fractions.push(fraction)?;
        left = rest;
    }
    Ok(Some(fractions))
}
