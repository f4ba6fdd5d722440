// The definitions of one reply.
ghost use Rattle.std.specs.Prelude.{◌≡◌, map};
ghost use Rattle.std.specs.Option.{option_map};
ghost use Rattle.sy_text_items.specs.Views.{item_of};
ghost use Rattle.sy_terms.specs.Denoted.{expr_of};
ghost use Rattle.sy_terms.specs.Logics.{IsTheoryOf};
ghost use Rattle.sy_reply.specs.Ends.{ReadsReplies};
ghost use Rattle.sy_reply.specs.declared.end.ReplyEnd.TheVariants as ends;
ghost use Rattle.sy_scope_names.specs.Asked.{listed_of};
ghost use Rattle.sy_reply_reader.specs.Asked.{IsSurrounded, question_in};
ghost use Rattle.sy_reply_reader.specs.Definitions as spec;
ghost use Rattle.sy_reply_reader.specs.Ends.{ended_as};
ghost use Rattle.sy_reply_reader.specs.Seen.{part_in, signature_in};
ghost use Rattle.sy_reply_reader.specs.Slots.{slots_of};

use crate::part::{Part, part_of};
use crate::signature::arguments_of;
use crate::slots::{Function, all_there, no_bodies, open_from};
use std::alloc::Global;
use sy_forms_items::{ReadEnd, Rest, is_symbol, place_of};
use sy_grammar_base::Problem;
use sy_reply::{ReplyCause, ReplyEnd, ReplyRefused};
use sy_scope_causes::Titles;
use sy_scope_names::{Listed, list_in};
use sy_scope_steps::{Surroundings, read_body_in};
use sy_terms::{Bodies, Logic, Term, Theory};
use sy_text_items::{Place, Sexp, Sexps};

/// What the reply to a `check-synth` is read under: its number, counted from 1, the logic, the names of the functions,
/// its problem, and what names stand for around the bodies.
#[derive(Drop)]
pub(crate) struct Asked<'a, T: Theory> {
    pub(crate) check: u32,
    pub(crate) logic: Logic,
    pub(crate) titles: &'a Titles,
    pub(crate) problem: &'a Problem<T>,
    pub(crate) around: &'a Surroundings,
}

/// The reply to this `check-synth` is refused.
pub(crate) fn refused(check: u32, place: Place, cause: ReplyCause) -> ReplyEnd
    ensures { result ≡ ends.Refused (record { check = check; place = place; cause = cause }) }
{
    ReplyEnd::Refused(ReplyRefused {
        check,
        place,
        cause,
    })
}

/// Why a body gives no statement.
fn ended(check: u32, end: ReadEnd) -> ReplyEnd
    ensures { result ≡ ended_as check end }
{
    match end {
        ReadEnd::Refused(place, cause) => refused(check, place, ReplyCause::Term(cause)),
        ReadEnd::Want => ReplyEnd::Want,
    }
}

/// The body of a part for this function: its arguments, and then the term over them.
fn part_body<T: Theory>(
    alloc: Global,
    asked: &Asked<'_, T>,
    function: &Function<'_>,
    part: &Part<'_>,
) -> Result<Term<T>, ReplyEnd>
    requires theory { IsTheoryOf asked.now.logic T.owned T.numeric }
    requires around { IsSurrounded T.denotes asked.now }
    ensures { ReadsReplies (expr_of T.denotes) result
        (spec.part_body asked.now.check asked.now.logic asked.now.titles.now (question_in T.denotes asked.now)
        (signature_in function.now) (part_in part.now)) }
{
    let Some(arguments) = arguments_of(alloc, asked.logic, function, part)? else {
        return Err(refused(asked.check, part.place, ReplyCause::Signature));
    };
    match read_body_in(
        alloc,
        asked.logic,
        asked.around,
        arguments.as_slice(),
        function.gives,
        part.body,
    ) {
        Ok(body) => Ok(body),
        Err(end) => Err(ended(asked.check, end)),
    }
}

/// Fills the slot of a function by the part that the item is.
fn part_read<T: Theory>(
    alloc: Global,
    asked: &Asked<'_, T>,
    slots: &mut Vec<Option<Term<T>>>,
    item: &Sexp,
) -> Result<(), ReplyEnd>
    requires theory { IsTheoryOf asked.now.logic T.owned T.numeric }
    requires around { IsSurrounded T.denotes asked.now }
    ensures { ReadsReplies (λ _. slots_of T.denotes slots.new.items) result
        (spec.part_read asked.now.check asked.now.logic asked.now.titles.now (question_in T.denotes asked.now)
        (slots_of T.denotes slots.old.items) (item_of item.now)) }
{
    let Some(part) = part_of(item) else {
        return Err(refused(asked.check, place_of(item), ReplyCause::Shape));
    };
    let Some(function) = open_from(
        0,
        part.name.name.as_slice(),
        asked.titles.wanted.as_slice(),
        asked.problem.wanted.as_slice(),
        slots.as_slice(),
    ) else {
        return Err(refused(asked.check, part.name.place, ReplyCause::Name));
    };
    let body = part_body(alloc, asked, &function, &part)?;
    slots[function.number] = Some(body);
    Ok(())
}

/// Fills the slots by the parts that the items are.
fn parts_read<T: Theory>(
    alloc: Global,
    asked: &Asked<'_, T>,
    slots: &mut Vec<Option<Term<T>>>,
    items: &Sexps,
) -> Result<(), ReplyEnd>
    requires theory { IsTheoryOf asked.now.logic T.owned T.numeric }
    requires around { IsSurrounded T.denotes asked.now }
    ensures { ReadsReplies (λ _. slots_of T.denotes slots.new.items) result
        (spec.parts_read asked.now.check asked.now.logic asked.now.titles.now (question_in T.denotes asked.now)
        (slots_of T.denotes slots.old.items) items.now) }
{
    let mut left = Rest::all(items);
    while let Some((item, rest)) = left.split() {
        part_read(alloc, asked, slots, item)?;
        left = rest;
    }
    Ok(())
}

/// The bodies that the parts of a list give: one for each function.
fn bodies_read<T: Theory>(
    alloc: Global,
    asked: &Asked<'_, T>,
    list: Listed<'_>,
) -> Result<Bodies<T>, ReplyEnd>
    requires theory { IsTheoryOf asked.now.logic T.owned T.numeric }
    requires around { IsSurrounded T.denotes asked.now }
    ensures { ReadsReplies (map (expr_of T.denotes)) result
        (spec.bodies_read asked.now.check asked.now.logic asked.now.titles.now (question_in T.denotes asked.now)
        (listed_of list.entry)) }
{
    let mut slots = no_bodies(alloc, asked.problem.wanted.as_slice())?;
    parts_read(alloc, asked, &mut slots, list.items)?;
    match all_there(alloc, slots)? {
        Some(bodies) => Ok(bodies),
        None => Err(refused(asked.check, list.place, ReplyCause::Name)),
    }
}

/// The bodies of the functions, in order of declaration; `None` where the item is `fail` or `infeasible`. Else the
/// first condition that doesn't hold is told with its place. `Shape` comes at the item where it isn't a list. For each
/// part in turn: `Shape` at it where it isn't `(define-fun name ((x s) ..) s t)`; `Name` at a name that is none of the
/// functions' or was defined before; `Signature` at the part where its arguments and its sort aren't the function's or
/// the name of an argument is reserved or repeated; `Term` at the place of the body's fault. Then `Name` comes at the
/// item where a function has no body. Out of memory is `Want`.
pub(crate) fn definitions_read<T: Theory>(
    alloc: Global,
    asked: &Asked<'_, T>,
    item: &Sexp,
) -> Result<Option<Bodies<T>>, ReplyEnd>
    requires theory { IsTheoryOf asked.now.logic T.owned T.numeric }
    requires around { IsSurrounded T.denotes asked.now }
    ensures { ReadsReplies (option_map (map (expr_of T.denotes))) result
        (spec.definitions_read asked.now.check asked.now.logic asked.now.titles.now (question_in T.denotes asked.now)
        (item_of item.now)) }
{
    if is_symbol(item, b"fail") || is_symbol(item, b"infeasible") {
        return Ok(None);
    }
    let Some(list) = list_in(item) else {
        return Err(refused(asked.check, place_of(item), ReplyCause::Shape));
    };
    let bodies = bodies_read(alloc, asked, list)?;
    Ok(Some(bodies))
}
