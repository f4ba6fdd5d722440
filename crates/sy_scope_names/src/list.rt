// Lists of names with sorts.
ghost use Rattle.std.specs.Prelude.{◌≡◌, List, [], IfOk};
ghost use Rattle.std.specs.Option.{option_map};
ghost use Rattle.sy_scope_names.specs.Requests.{symbol_spelled};
ghost use Rattle.sy_text_items.specs.Views.{item_of};
ghost use Rattle.sy_forms_items.specs.Readings.{ReadingGives};
ghost use Rattle.sy_forms_items.specs.Views.{items_in};
ghost use Rattle.sy_forms_items.specs.declared.names.Named.{Named};
ghost use Rattle.sy_scope_names.specs.Lists as spec;

use std::alloc::Global;
use sy_forms_items::{
    Named, Names, ReadEnd, Rest, copied, is_reserved, place_among, place_of, read_sort, symbol,
};
use sy_scope_causes::Cause;
use sy_seq::{Seq, Want};
use sy_terms::{Logic, Sort};
use sy_text_items::{Name, Place, Sexp, Sexps};

/// How many names a list may have.
const NAMED_MAX: usize = 64;

/// What a name with its sort is read under.
#[derive(Clone, Copy)]
pub struct Naming<'a> {
    /// The logic of the file.
    pub logic: Logic,
    /// What is declared.
    pub names: &'a Names,
    /// The names that are taken.
    pub taken: &'a [Named],
}

/// The name, where it is neither reserved, nor taken, nor one of those that stand before it in its list; else
/// `NameTaken`.
fn free_name<'a>(
    naming: &Naming<'_>,
    done: &[Named],
    at: Place,
    name: &'a Name,
) -> Result<&'a Name, ReadEnd>
    ensures { ReadingGives (λ free.
        free.now) result (spec.free_name naming.now.logic naming.now.taken.now done.now at name.now) }
{
    if is_reserved(naming.logic, name.as_slice()) {
        return Err(ReadEnd::Refused(at, Cause::NameTaken));
    }
    if place_among(naming.taken, name.as_slice())?.is_some() {
        return Err(ReadEnd::Refused(at, Cause::NameTaken));
    }
    if place_among(done, name.as_slice())?.is_some() {
        return Err(ReadEnd::Refused(at, Cause::NameTaken));
    }
    Ok(name)
}

/// The name and the sort that stand in a list at a place.
fn named_by(
    alloc: Global,
    naming: &Naming<'_>,
    done: &[Named],
    place: Place,
    name: &Sexp,
    sort: &Sexp,
) -> Result<Named, ReadEnd>
    ensures { ReadingGives (λ named. named) result (spec.named_by naming.now.names.now.sorts
        naming.now.logic naming.now.taken.now done.now place (symbol_spelled (item_of name.now)) (item_of sort.now)) }
{
    let at = place_of(name);
    let Some(name) = symbol(name) else {
        return Err(ReadEnd::Refused(place, Cause::Shape));
    };
    let name = free_name(naming, done, at, name)?;
    let sort = read_sort(naming.logic, naming.names, sort)?;
    let name = copied(alloc, name)?;
    Ok(Named { name, sort })
}

/// The name and the sort that a list holds.
fn named_pair(
    alloc: Global,
    naming: &Naming<'_>,
    done: &[Named],
    place: Place,
    parts: Rest<'_>,
) -> Result<Named, ReadEnd>
    ensures { ReadingGives (λ named. named) result (spec.named_pair naming.now.names.now.sorts
        naming.now.logic naming.now.taken.now done.now place (items_in parts.entry)) }
{
    let Some((name, rest)) = parts.split() else {
        return Err(ReadEnd::Refused(place, Cause::Shape));
    };
    let Some((sort, rest)) = rest.split() else {
        return Err(ReadEnd::Refused(place, Cause::Shape));
    };
    if !rest.is_empty() {
        return Err(ReadEnd::Refused(place, Cause::Shape));
    }
    named_by(alloc, naming, done, place, name, sort)
}

/// The name and the sort that the item is.
#[tactic(auto, unfolding(crate::specs::Lists::named_item))]
fn named_item(
    alloc: Global,
    naming: &Naming<'_>,
    done: &[Named],
    item: &Sexp,
) -> Result<Named, ReadEnd>
    ensures { ReadingGives (λ named. named) result
        (spec.named_item naming.now.names.now.sorts naming.now.logic naming.now.taken.now done.now (item_of item.now)) }
{
    match item {
        Sexp::Atom(_, place) => Err(ReadEnd::Refused(*place, Cause::Shape)),
        Sexp::List(parts, place) => named_pair(alloc, naming, done, *place, Rest::all(parts)),
    }
}

/// The names with sorts that the items are, at most 64. For each in turn, `Shape` comes at the item where it isn't
/// `(x s)` with a symbol, `NameTaken` at a name that is reserved, taken, or stands before it, a fault of the sort, and
/// `TooMany` at the 65th item.
pub fn read_named(alloc: Global, naming: &Naming<'_>, items: &Sexps) -> Result<Seq<Named>, ReadEnd>
    ensures { ReadingGives (λ named.
        named) result (spec.read_named naming.now.names.now.sorts naming.now.logic naming.now.taken.now [] items.now) }
{
    let mut done = Seq::new(alloc);
    let mut left = Rest::all(items);
    while let Some((item, rest)) = left.split() {
        let named = named_item(alloc, naming, done.as_slice(), item)?;
        if done.len() >= NAMED_MAX {
            return Err(ReadEnd::Refused(place_of(item), Cause::TooMany));
        }
        done.push(named)?;
        left = rest;
    }
    Ok(done)
}

/// The sorts of names, in order.
pub fn sorts_of(alloc: Global, named: &[Named]) -> Result<Seq<Sort>, Want>
    ensures { IfOk result (λ sorts. sorts ≡ spec.sorts_of_names named.now) }
{
    let mut sorts = Seq::new(alloc);
    for one in named {
        sorts.push(one.sort)?;
    }
    Ok(sorts)
}
