// The parts of a `let` and of its bindings.
ghost use Rattle.std.specs.Prelude.{◌≡◌};
ghost use Rattle.std.specs.Option.{option_map};
ghost use Rattle.sy_text_items.specs.Views.{item_of};
ghost use Rattle.sy_forms_items.specs.Readings.{ReadingGives};
ghost use Rattle.sy_forms_items.specs.Views.{items_in};
ghost use Rattle.sy_forms.specs.Parts as parts;
ghost use Rattle.sy_forms.specs.Terms as spec;

use sy_forms_items::{Locals, ReadEnd, Rest, is_reserved, place_of, symbol};
use sy_scope_causes::Cause;
use sy_terms::Logic;
use sy_text_items::{Name, Place, Sexp};

/// Two items, of a list that has no more.
fn two_items<'a>(items: Rest<'a>) -> Option<(&'a Sexp, &'a Sexp)>
    ensures { option_map (λ x. (item_of x.0.now, item_of x.1.now)) result ≡ parts.two_items (items_in items.entry) }
{
    let (first, rest) = items.split()?;
    let (second, rest) = rest.split()?;
    if rest.is_empty() {
        Some((first, second))
    } else {
        None
    }
}

/// What stands behind `let`: one binding or more, and the inner term.
pub(crate) fn let_parts<'a>(place: Place, items: Rest<'a>) -> Result<(Rest<'a>, &'a Sexp), ReadEnd>
    ensures { ReadingGives (λ x.
        (items_in x.0, item_of x.1.now)) result (parts.let_parts place (items_in items.entry)) }
{
    let Some((bindings, inner)) = two_items(items) else {
        return Err(ReadEnd::Refused(place, Cause::Shape));
    };
    match bindings {
        Sexp::Atom(_, _) => Err(ReadEnd::Refused(place, Cause::Shape)),
        Sexp::List(bindings, _) => {
            let bindings = Rest::all(bindings);
            if bindings.is_empty() {
                return Err(ReadEnd::Refused(place, Cause::Shape));
            }
            Ok((bindings, inner))
        }
    }
}

/// The name of the binding that stands at a place: it isn't reserved and is none of the names that are taken.
fn new_name<'a>(
    logic: Logic,
    taken: &Locals,
    place: Place,
    item: &'a Sexp,
) -> Result<&'a Name, ReadEnd>
    ensures { ReadingGives (λ name. name.now) result (spec.new_binding_name logic taken.now place (item_of item.now)) }
{
    let Some(name) = symbol(item) else {
        return Err(ReadEnd::Refused(place, Cause::Shape));
    };
    if is_reserved(logic, name.as_slice()) {
        return Err(ReadEnd::Refused(place_of(item), Cause::NameTaken));
    }
    match taken.find(name.as_slice()) {
        Some(_) => Err(ReadEnd::Refused(place_of(item), Cause::NameTaken)),
        None => Ok(name),
    }
}

/// The name and the term of the binding `(x t)`, where these names are taken.
pub(crate) fn binding_parts<'a>(
    logic: Logic,
    taken: &Locals,
    item: &'a Sexp,
) -> Result<(&'a Name, &'a Sexp), ReadEnd>
    ensures { ReadingGives (λ x.
        (x.0.now, item_of x.1.now)) result (parts.binding_parts logic taken.now (item_of item.now)) }
{
    match item {
        Sexp::Atom(_, place) => Err(ReadEnd::Refused(*place, Cause::Shape)),
        Sexp::List(items, place) => {
            let Some((name, term)) = two_items(Rest::all(items)) else {
                return Err(ReadEnd::Refused(*place, Cause::Shape));
            };
            let name = new_name(logic, taken, *place, name)?;
            Ok((name, term))
        }
    }
}
