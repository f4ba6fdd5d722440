// Predeclarations of nonterminals.
ghost use Rattle.std.specs.Prelude.{◌≡◌};
ghost use Rattle.std.specs.Option.{option_map};
ghost use Rattle.sy_text_items.specs.Views.{item_of};
ghost use Rattle.sy_forms_items.specs.Readings.{ReadingGives};
ghost use Rattle.sy_forms_items.specs.Views.{items_in};
ghost use Rattle.sy_scope_names.specs.Lists as spec;

use crate::list::{Naming, read_named};
use std::alloc::Global;
use sy_forms_items::{Named, ReadEnd, Rest, place_of};
use sy_scope_causes::Cause;
use sy_seq::Seq;
use sy_terms::{Sort, same_sort};
use sy_text_items::{Place, Sexp, Sexps};

/// The sort of a list of a name and a sort.
fn sort_of_pair(item: &Sexp) -> Option<&Sexp>
    ensures { option_map (λ sort. item_of sort.now) result ≡ spec.sort_of_pair (item_of item.now) }
{
    let Sexp::List(parts, _) = item else {
        return None;
    };
    let (_, rest) = Rest::all(parts).split()?;
    let (sort, rest) = rest.split()?;
    if rest.is_empty() { Some(sort) } else { None }
}

/// The first sort of a predeclaration.
fn first_sort(items: Rest<'_>) -> Option<&Sexp>
    ensures { option_map (λ sort. item_of sort.now) result ≡ spec.first_sort (items_in items.entry) }
{
    let (first, _) = items.split()?;
    sort_of_pair(first)
}

/// The nonterminals, where the first has this sort.
fn starts_with(sort: Sort, first: Option<&Sexp>, named: Seq<Named>) -> Result<Seq<Named>, ReadEnd>
    ensures { ReadingGives (λ named.
        named) result (spec.starts_with sort (option_map (λ item. item_of item.now) first.entry) named) }
{
    if let (Some(item), Some(start)) = (first, named.get(0)) {
        if !same_sort(&start.sort, &sort) {
            return Err(ReadEnd::Refused(place_of(item), Cause::SortMismatch));
        }
    }
    Ok(named)
}

/// The nonterminals that are predeclared in a list at this place. `Shape` comes there where it is empty, then the
/// faults of the items as in `read_named`, and then `SortMismatch` at the first sort, where it isn't this one.
pub fn read_predeclared(
    alloc: Global,
    naming: &Naming<'_>,
    sort: Sort,
    items: &Sexps,
    place: Place,
) -> Result<Seq<Named>, ReadEnd>
    ensures { ReadingGives (λ named. named) result (spec.read_predeclared naming.now.names.now.sorts
        naming.now.logic naming.now.taken.now sort (record { items = items.now; place = place })) }
{
    let first = Rest::all(items);
    if first.is_empty() {
        return Err(ReadEnd::Refused(place, Cause::Shape));
    }
    let named = read_named(alloc, naming, items)?;
    let named = starts_with(sort, first_sort(first), named)?;
    Ok(named)
}
