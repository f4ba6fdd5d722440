// The bodies so far, in one slot for each function to be found.
ghost use Rattle.std.specs.Prelude.{◌≡◌, ◌<◌, ◌+◌, ◌^◌, map, length, IfOk, IfSome};
ghost use Rattle.std.specs.Option.{option_map};
ghost use Rattle.sy_terms.specs.Denoted.{expr_of};
ghost use Rattle.sy_grammar_base.specs.Questions.{goal_of};
ghost use Rattle.sy_reply_reader.specs.Seen.{function_in};
ghost use Rattle.sy_reply_reader.specs.Slots as spec;
ghost use Rattle.sy_reply_reader.specs.Slots.{slots_of};

use std::alloc::Global;
use sy_forms_items::is;
use sy_grammar_base::Wanted;
use sy_scope_causes::Title;
use sy_seq::{Seq, Want};
use sy_terms::{Bodies, Sort, Term, Theory};

/// A function to be found: its number, its arguments' sorts, and its value's sort.
#[derive(Clone, Copy)]
pub(crate) struct Function<'a> {
    pub(crate) number: usize,
    pub(crate) takes: &'a [Sort],
    pub(crate) gives: Sort,
}

/// An empty slot for each function.
pub(crate) fn no_bodies<T: Theory>(
    alloc: Global,
    wanted: &[Wanted<T>],
) -> Result<Vec<Option<Term<T>>>, Want>
    ensures { IfOk result (λ slots. slots_of T.denotes slots.items ≡ spec.no_bodies
        (map (goal_of T.denotes) wanted.now)) }
{
    let mut slots = Vec::new(alloc);
    for _ in wanted {
        slots.push(None)?;
    }
    Ok(slots)
}

/// Whether the function has this name and no body.
fn is_open<T: Theory>(title: &Title, name: &[u8], slot: &Option<Term<T>>) -> bool
    ensures { result ≡ spec.is_open title.now.name name.now (option_map (expr_of T.denotes) slot.now) }
{
    match slot {
        None => is(title.name.as_slice(), name),
        Some(_) => false,
    }
}

/// The first function of this name that has no body, where the first function has this number.
pub(crate) fn open_from<'a, T: Theory>(
    number: usize,
    name: &[u8],
    titles: &[Title],
    wanted: &'a [Wanted<T>],
    slots: &[Option<Term<T>>],
) -> Option<Function<'a>>
    requires { number + length slots.now < 2 ^ 64 }
    ensures found { option_map function_in result ≡ spec.open_from number name.now titles.now
        (map (goal_of T.denotes) wanted.now) (slots_of T.denotes slots.now) }
    ensures within { IfSome result (λ function. function.number < number + length slots.now) }
{
    let [title, titles @ ..] = titles else {
        return None;
    };
    let [function, wanted @ ..] = wanted else {
        return None;
    };
    let [slot, slots @ ..] = slots else {
        return None;
    };
    if is_open(title, name, slot) {
        return Some(Function {
            number,
            takes: function.args.as_slice(),
            gives: function.sort,
        });
    }
    open_from(number + 1, name, titles, wanted, slots)
}

/// The bodies, where each function has one.
pub(crate) fn all_there<T: Theory>(
    alloc: Global,
    slots: Vec<Option<Term<T>>>,
) -> Result<Option<Bodies<T>>, Want>
    ensures { IfOk result (λ found. option_map (map (expr_of T.denotes)) found ≡ spec.all_there
        (slots_of T.denotes slots.items)) }
{
    let mut rest = slots.into_iter();
    let mut bodies = Seq::new(alloc);
    while let Some(slot) = rest.next() {
        let Some(body) = slot else {
            return Ok(None);
        };
        bodies.push(body)?;
    }
    Ok(Some(bodies))
}
