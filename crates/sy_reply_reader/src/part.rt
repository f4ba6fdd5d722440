// Parts of a reply.
ghost use Rattle.std.specs.Prelude.{◌≡◌};
ghost use Rattle.std.specs.Option.{option_map};
ghost use Rattle.sy_text_items.specs.Views.{item_of};
ghost use Rattle.sy_forms_items.specs.Views.{items_in};
ghost use Rattle.sy_scope_names.specs.Asked.{request_in};
ghost use Rattle.sy_reply_reader.specs.Parts as spec;
ghost use Rattle.sy_reply_reader.specs.Seen.{part_in};

use sy_forms_items::{Rest, is_symbol, symbol};
use sy_scope_names::{Command, Request, Spelled, request_of};
use sy_text_items::{Place, Sexp, Sexps};

/// A definition `(define-fun name ((x s) ..) s t)`.
#[derive(Clone, Copy)]
pub(crate) struct Part<'a> {
    pub(crate) name: Spelled<'a>,
    pub(crate) arguments: &'a Sexps,
    pub(crate) sort: &'a Sexp,
    pub(crate) body: &'a Sexp,
    /// Where its bracket stands.
    pub(crate) place: Place,
}

/// Whether the items are a symbol and one item more.
fn is_pair(parts: Rest<'_>) -> bool
    ensures { result ≡ spec.is_pair (items_in parts.entry) }
{
    let Some((name, rest)) = parts.split() else {
        return false;
    };
    let Some((_, rest)) = rest.split() else {
        return false;
    };
    rest.is_empty() && symbol(name).is_some()
}

/// Whether the item is an argument `(x s)`.
fn is_argument(item: &Sexp) -> bool
    ensures { result ≡ spec.is_argument (item_of item.now) }
{
    match item {
        Sexp::Atom(_, _) => false,
        Sexp::List(parts, _) => is_pair(Rest::all(parts)),
    }
}

/// Whether each item is an argument `(x s)`.
fn are_arguments(items: &Sexps) -> bool
    ensures { result ≡ spec.are_arguments items.now }
{
    let mut left = Rest::all(items);
    while let Some((item, rest)) = left.split() {
        if !is_argument(item) {
            return false;
        }
        left = rest;
    }
    true
}

/// The part that asks for this, at its place.
fn part_asked(place: Place, request: Option<Request<'_>>) -> Option<Part<'_>>
    ensures { option_map part_in result ≡ spec.part_asked place (option_map request_in request.entry) }
{
    match request? {
        Request::Define(name, arguments, sort, body) => {
            if are_arguments(arguments) {
                Some(Part {
                    name,
                    arguments,
                    sort,
                    body,
                    place,
                })
            } else {
                None
            }
        }
        _ => None,
    }
}

/// The part that the item is; `None` exactly where it isn't `(define-fun name ((x s) ..) s t)`.
#[tactic(auto, unfolding(crate::specs::Parts::part_of, sy_scope_names::specs::Requests::request_of))]
pub(crate) fn part_of(item: &Sexp) -> Option<Part<'_>>
    ensures { option_map part_in result ≡ spec.part_of (item_of item.now) }
{
    let Sexp::List(items, place) = item else {
        return None;
    };
    let (head, parts) = Rest::all(items).split()?;
    if !is_symbol(head, b"define-fun") {
        return None;
    }
    part_asked(*place, request_of(Command::DefineFun, parts))
}
