// What commands ask for.
ghost use Rattle.sy_text_items.specs.Views.{item_of};
ghost use Rattle.sy_forms_items.specs.Readings.{ReadingGives};
ghost use Rattle.sy_scope_names.specs.Asked.{spelled_of};
ghost use Rattle.sy_scope_declared.specs.Calls.{asked_of};
ghost use Rattle.sy_scope_names.specs.Changes as spec;

use sy_forms_items::{ReadEnd, Rest, is, place_of, symbol};
use sy_scope_causes::Cause;
use sy_scope_names::{Request, Spelled, command_named, request_of};
use sy_text_items::{Place, Sexp};

/// `set-feature`: grammars alone can be switched on; else `Feature` at the keyword.
pub fn check_feature(feature: Spelled<'_>, on: bool) -> Result<(), ReadEnd>
    ensures { ReadingGives (λ _. tt) result (spec.feature_set (spelled_of feature.entry) on) }
{
    if on && !is(feature.name.as_slice(), b"grammars") {
        Err(ReadEnd::Refused(feature.place, Cause::Feature))
    } else {
        Ok(())
    }
}

/// What a command asks for, and the places of its bracket and its name.
#[derive(Clone, Copy)]
pub struct Asked<'a> {
    pub request: Request<'a>,
    pub place: Place,
    pub at: Place,
}

/// What the item asks for as a command. `Shape` comes at it where it isn't a list that begins with a symbol, then
/// `CommandNotInProfile` at the symbol, and then `Shape` at the item where its parts aren't those of the command.
pub fn read_request(item: &Sexp) -> Result<Asked<'_>, ReadEnd>
    ensures { ReadingGives asked_of result (spec.command_asked (item_of item.now)) }
{
    let Sexp::List(items, place) = item else {
        return Err(ReadEnd::Refused(place_of(item), Cause::Shape));
    };
    let Some((head, parts)) = Rest::all(items).split() else {
        return Err(ReadEnd::Refused(*place, Cause::Shape));
    };
    let Some(name) = symbol(head) else {
        return Err(ReadEnd::Refused(*place, Cause::Shape));
    };
    let at = place_of(head);
    let Some(command) = command_named(name.as_slice()) else {
        return Err(ReadEnd::Refused(at, Cause::CommandNotInProfile));
    };
    match request_of(command, parts) {
        Some(request) => Ok(Asked {
            request,
            place: *place,
            at,
        }),
        None => Err(ReadEnd::Refused(*place, Cause::Shape)),
    }
}
