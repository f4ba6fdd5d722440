// The front of a file: its bytes before the reply part.
ghost use Rattle.std.specs.Prelude.{◌≡◌, ◌≤◌, ◌<◌, length, IfOk, IfSome};
ghost use Rattle.sy_text_items.specs.Views.{item_of, command_of};
ghost use Rattle.sy_forms_items.specs.Parts as parts;
ghost use Rattle.sy_scope.specs.Fronts as spec;

use std::alloc::Global;
use sy_forms_items::{Rest, place_of, symbol};
use sy_seq::Want;
use sy_text::{TextEnd, next_command};
use sy_text_items::Sexp;

/// Whether a reply part begins with the item: an atom, the empty list, or a list whose first part is no symbol. No
/// command has this form.
fn begins_replies(item: &Sexp) -> bool
    ensures { result ≡ spec.begins_replies (item_of item.now) }
{
    let Sexp::List(parts, _) = item else {
        return true;
    };
    match Rest::all(parts).split() {
        Some((first, _)) => symbol(first).is_none(),
        None => true,
    }
}

/// The next item from an offset on, and the offset behind it; `None` where there is none, and where the text has a
/// fault.
fn next_item(alloc: Global, bytes: &[u8], at: usize) -> Result<Option<(Sexp, usize)>, Want>
    requires { at ≤ length bytes.now }
    ensures exact { IfOk result (λ found. command_of found ≡ spec.item_at bytes.now at) }
    ensures forward { IfOk result (λ found. IfSome found (λ x. (at < x.1) × (x.1 ≤ length bytes.now))) }
    ensures inside { IfOk result (λ found. IfSome found (λ x. (parts.place_of (item_of x.0)).at < length bytes.now)) }
{
    match next_command(alloc, bytes, at) {
        Ok(found) => Ok(found),
        Err(TextEnd::Fault(_)) => Ok(None),
        Err(TextEnd::Want) => Err(Want {}),
    }
}

/// The offset at which the reply part of a file begins: that of the first item that is an atom, the empty list, or a
/// list whose first part is no symbol. Where there is none, and where the text has a fault before it, it is the number
/// of bytes. Out of memory is `Want`.
pub fn reply_start(alloc: Global, bytes: &[u8]) -> Result<usize, Want>
    ensures start { IfOk result (λ start. start ≡ spec.front_length bytes.now) }
    ensures within { IfOk result (λ start. start ≤ length bytes.now) }
{
    let mut at = 0;
    while let Some((item, after)) = next_item(alloc, bytes, at)? {
        if begins_replies(&item) {
            return Ok(place_of(&item).at);
        }
        at = after;
    }
    Ok(bytes.len())
}
