// Lists that begin with a word, and lists of two items.
ghost use Rattle.std.specs.Prelude.{◌≡◌, MatchOption};
ghost use Rattle.std.specs.Option.{option_map};
ghost use Rattle.sy_text_items.specs.Items.{none, more};
ghost use Rattle.sy_text_items.specs.Views.{item_of};
ghost use Rattle.sy_forms_items.specs.Views.{items_in};
ghost use Rattle.sy_proof.specs.Lists as spec;

use sy_forms_items::{Rest, is_symbol};
use sy_text_items::Sexp;

/// The items behind this word, with which the list begins; `None` where the item is no such list.
pub(crate) fn behind_word<'a>(item: &'a Sexp, word: &[u8]) -> Option<Rest<'a>>
    ensures { option_map (λ rest. items_in rest) result ≡ spec.behind_word word.now (item_of item.now) }
{
    match item {
        Sexp::Atom(_, _) => None,
        Sexp::List(parts, _) => {
            let (head, rest) = Rest::all(parts).split()?;
            if is_symbol(head, word) {
                Some(rest)
            } else {
                None
            }
        }
    }
}

/// The two items that there are; `None` exactly where there are fewer or more.
pub(crate) fn two(items: Rest<'_>) -> Option<(&Sexp, &Sexp)>
    ensures { MatchOption result
        (spec.AreNotTwo (items_in items.entry))
        (λ both. items_in items.entry ≡ more (item_of both.0.now) (more (item_of both.1.now) none)) }
{
    let (first, rest) = items.split()?;
    let (second, rest) = rest.split()?;
    if rest.is_empty() {
        Some((first, second))
    } else {
        None
    }
}
