// Sorts.
ghost use Rattle.std.specs.Prelude.{◌≡◌};
ghost use Rattle.sy_text_items.specs.Views.{item_of};
ghost use Rattle.sy_terms.specs.Fitting as fitting;
ghost use Rattle.sy_forms_items.specs.Parts as parts;
ghost use Rattle.sy_forms_items.specs.Sorts as spec;
ghost use Rattle.sy_forms_items.specs.Views.{items_in};

use crate::fault::Fault;
use crate::parts::{Indices, Rest, indexed_name, is, is_symbol, symbol_in};
use crate::table::Names;
use sy_scope_causes::Cause;
use sy_terms::{Logic, Sort, same_sort};
use sy_text_items::{Place, Sexp};

/// Whether the number is a width, from 1 to 64.
pub fn is_width(n: u128) -> bool
    ensures { result ≡ spec.is_width n }
{
    1 <= n && n <= 64
}

/// The sort of this name.
fn sort_named(logic: Logic, names: &Names, name: &[u8]) -> Option<Sort>
    ensures { result ≡ spec.sort_named logic names.now.sorts name.now }
{
    if is(name, b"Bool") {
        return Some(Sort::Bool);
    }
    if is(name, b"Int") {
        return match logic {
            Logic::Lia => Some(Sort::Int),
            Logic::Bv => None,
        };
    }
    names.sort(name)
}

/// The sort of vectors that stands in a list.
fn vector_sort(place: Place, items: Rest<'_>) -> Result<Sort, Fault>
    ensures { result ≡ spec.vector_sort place (parts.indexed_name (items_in items.entry)) }
{
    let unknown = Fault {
        place,
        cause: Cause::UnknownSort,
    };
    match indexed_name(items) {
        Some((name, Indices::One(width))) if is(name.as_slice(), b"BitVec") => {
            if is_width(width) {
                Ok(Sort::Bits(width as u8))
            } else {
                Err(Fault {
                    place,
                    cause: Cause::Width,
                })
            }
        }
        _ => Err(unknown),
    }
}

/// The sort that a list is.
fn indexed_sort(logic: Logic, place: Place, items: Rest<'_>) -> Result<Sort, Fault>
    ensures { result ≡ spec.indexed_sort logic place (items_in items.entry) }
{
    let unknown = Fault {
        place,
        cause: Cause::UnknownSort,
    };
    match (logic, items.split()) {
        (Logic::Bv, Some((head, rest))) if is_symbol(head, b"_") => vector_sort(place, rest),
        _ => Err(unknown),
    }
}

/// The sort that the item is: `Bool`; `Int` in LIA; `(_ BitVec w)` in BV with a numeral `w`; an abbreviation.
/// `Width` comes at such a list where `w` isn't from 1 to 64, `Shape` at an atom that is no symbol, and
/// `UnknownSort` at any other symbol or list.
#[tactic(auto, unfolding(crate::specs::Sorts::read_sort))]
pub fn read_sort(logic: Logic, names: &Names, item: &Sexp) -> Result<Sort, Fault>
    ensures { result ≡ spec.read_sort logic names.now.sorts (item_of item.now) }
{
    match item {
        Sexp::Atom(atom, place) => match symbol_in(atom) {
            None => Err(Fault {
                place: *place,
                cause: Cause::Shape,
            }),
            Some(name) => match sort_named(logic, names, name.as_slice()) {
                Some(sort) => Ok(sort),
                None => Err(Fault {
                    place: *place,
                    cause: Cause::UnknownSort,
                }),
            },
        },
        Sexp::List(items, place) => indexed_sort(logic, *place, Rest::all(items)),
    }
}

/// Whether two lists of sorts are the same.
pub fn same_sorts(a: &[Sort], b: &[Sort]) -> bool
    ensures { result ≡ fitting.same_sorts a.now b.now }
{
    match a {
        [] => b.is_empty(),
        [x, xs @ ..] => match b {
            [] => false,
            [y, ys @ ..] => same_sort(x, y) && same_sorts(xs, ys),
        },
    }
}
