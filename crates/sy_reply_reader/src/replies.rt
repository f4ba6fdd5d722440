// The replies to the `check-synth` commands of a file.
ghost use Rattle.std.specs.Prelude.{◌≡◌, ◌≤◌, [], length, map, IfOk, IfSome};
ghost use Rattle.std.specs.Option.{option_map};
ghost use Rattle.sy_text_items.specs.Views.{item_of, command_of};
ghost use Rattle.sy_text.specs.Reading as reading;
ghost use Rattle.sy_terms.specs.Denoted.{expr_of};
ghost use Rattle.sy_terms.specs.Logics.{IsTheoryOf};
ghost use Rattle.sy_grammar_base.specs.Questions.{question_of};
ghost use Rattle.sy_reply.specs.Ends.{ReadsReplies};
ghost use Rattle.sy_reply.specs.Statements.{statement_of};
ghost use Rattle.sy_reply_reader.specs.Definitions as definitions;
ghost use Rattle.sy_reply.specs.Fitting.{AreStatedFor};
ghost use Rattle.sy_reply_reader.specs.Replies as spec;

use crate::definitions::{Asked, definitions_read, refused};
use std::alloc::Global;
use sy_forms_items::{Rest, is_symbol, place_of};
use sy_grammar_base::Problem;
use sy_reply::{ReplyCause, ReplyEnd, Stated};
use sy_scope_causes::Titles;
use sy_scope_steps::Surroundings;
use sy_terms::{Bodies, Logic, Seq, Theory};
use sy_text::{TextEnd, next_command};
use sy_text_items::{Place, Sexp, TextFault};

/// A file with replies: its bytes, its logic, the names of its functions, and whether each list of definitions has a
/// proof behind it.
#[derive(Clone, Copy)]
struct Source<'a> {
    bytes: &'a [u8],
    logic: Logic,
    titles: &'a Titles,
    proofs: bool,
}

/// The offset of a fault of the text.
fn offset_of(fault: TextFault) -> usize
    ensures { result ≡ reading.offset_of fault }
{
    match fault {
        TextFault::BadByte(at) => at,
        TextFault::Unclosed(at) => at,
        TextFault::Stray(at) => at,
        TextFault::LiteralRange(at) => at,
        TextFault::TooDeep(at) => at,
    }
}

/// The next item from an offset on, and the offset behind it.
fn next_item(
    alloc: Global,
    bytes: &[u8],
    check: u32,
    at: usize,
) -> Result<Option<(Sexp, usize)>, ReplyEnd>
    requires { at ≤ length bytes.now }
    ensures read { ReadsReplies command_of result (spec.next_item check bytes.now at) }
    ensures within { IfOk result (λ found. IfSome found (λ x. x.1 ≤ length bytes.now)) }
{
    match next_command(alloc, bytes, at) {
        Ok(found) => Ok(found),
        Err(TextEnd::Fault(fault)) => {
            let place = Place {
                at: offset_of(fault),
            };
            Err(refused(check, place, ReplyCause::Text(fault)))
        }
        Err(TextEnd::Want) => Err(ReplyEnd::Want),
    }
}

/// The next item, which has to be there.
fn item_read(
    alloc: Global,
    bytes: &[u8],
    check: u32,
    missing: ReplyCause,
    at: usize,
) -> Result<(Sexp, usize), ReplyEnd>
    requires { at ≤ length bytes.now }
    ensures read { ReadsReplies (λ x. (item_of x.0, x.1)) result (spec.item_read check missing bytes.now at) }
    ensures within { IfOk result (λ x. x.1 ≤ length bytes.now) }
{
    match next_item(alloc, bytes, check, at)? {
        Some(found) => Ok(found),
        None => {
            let end = Place { at: bytes.len() };
            Err(refused(check, end, missing))
        }
    }
}

/// Whether the item is a list that begins as a proof of the logic does.
fn is_proof(logic: Logic, item: &Sexp) -> bool
    ensures { result ≡ spec.begins_with (spec.proof_word logic) (item_of item.now) }
{
    let Sexp::List(items, _) = item else {
        return false;
    };
    let Some((head, _)) = Rest::all(items).split() else {
        return false;
    };
    match logic {
        Logic::Lia => is_symbol(head, b"tree"),
        Logic::Bv => is_symbol(head, b"log"),
    }
}

/// The proof behind definitions, and the offset behind it.
fn proof_read(
    alloc: Global,
    source: Source<'_>,
    check: u32,
    at: usize,
) -> Result<(Sexp, usize), ReplyEnd>
    requires { at ≤ length source.bytes.now }
    ensures read { ReadsReplies (λ x. (item_of x.0, x.1)) result
        (spec.proof_read check source.entry.logic source.entry.bytes.now at) }
    ensures within { IfOk result (λ x. x.1 ≤ length source.entry.bytes.now) }
{
    let (item, behind) = item_read(alloc, source.bytes, check, ReplyCause::ProofShape, at)?;
    if is_proof(source.logic, &item) {
        return Ok((item, behind));
    }
    let place = place_of(&item);
    drop(item);
    Err(refused(check, place, ReplyCause::ProofShape))
}

/// What definitions up to an offset state, and the offset behind them and their proof.
fn stated_by<T: Theory>(
    alloc: Global,
    source: Source<'_>,
    check: u32,
    bodies: Option<Bodies<T>>,
    at: usize,
) -> Result<(Stated<T>, usize), ReplyEnd>
    requires { at ≤ length source.bytes.now }
    ensures read { ReadsReplies (λ x. (statement_of T.denotes x.0, x.1)) result
        (spec.stated_by source.entry.proofs check source.entry.logic source.entry.bytes.now at
        (option_map (map (expr_of T.denotes)) bodies)) }
    ensures within { IfOk result (λ x. x.1 ≤ length source.entry.bytes.now) }
{
    let Some(bodies) = bodies else {
        return Ok((Stated::Nothing, at));
    };
    if !source.proofs {
        return Ok((Stated::Bodies(bodies, None), at));
    }
    let (proof, behind) = proof_read(alloc, source, check, at)?;
    Ok((Stated::Bodies(bodies, Some(proof)), behind))
}

/// The definitions that the item gives of a problem's functions.
fn definitions_of<T: Theory>(
    alloc: Global,
    source: Source<'_>,
    check: u32,
    problem: &Problem<T>,
    item: &Sexp,
) -> Result<Option<Bodies<T>>, ReplyEnd>
    requires { IsTheoryOf source.logic T.owned T.numeric }
    ensures { ReadsReplies (option_map (map (expr_of T.denotes))) result
        (definitions.definitions_read check source.entry.logic source.entry.titles.now
        (question_of T.denotes problem.now) (item_of item.now)) }
{
    let around = Surroundings::of(alloc, source.titles, &problem.defs)?;
    let asked = Asked {
        check,
        logic: source.logic,
        titles: source.titles,
        problem,
        around: &around,
    };
    let read = definitions_read(alloc, &asked, item);
    drop(around);
    read
}

/// The statement of the reply to a `check-synth`, from an offset on, and the offset behind it.
fn statement_read<T: Theory>(
    alloc: Global,
    source: Source<'_>,
    check: u32,
    problem: &Problem<T>,
    at: usize,
) -> Result<(Stated<T>, usize), ReplyEnd>
    requires theory { IsTheoryOf source.logic T.owned T.numeric }
    requires at { at ≤ length source.bytes.now }
    ensures read { ReadsReplies (λ x. (statement_of T.denotes x.0, x.1)) result
        (spec.statement_read source.entry.proofs source.entry.logic source.entry.titles.now source.entry.bytes.now check
        (question_of T.denotes problem.now) at) }
    ensures within { IfOk result (λ x. x.1 ≤ length source.entry.bytes.now) }
{
    let (item, behind) = item_read(alloc, source.bytes, check, ReplyCause::Count, at)?;
    let read = definitions_of(alloc, source, check, problem, &item);
    drop(item);
    stated_by(alloc, source, check, read?, behind)
}

/// Tests that no item is left behind the last reply.
fn nothing_left(alloc: Global, bytes: &[u8], check: u32, at: usize) -> Result<(), ReplyEnd>
    requires { at ≤ length bytes.now }
    ensures { ReadsReplies (λ _. []) result (spec.end_read check bytes.now at) }
{
    match next_item(alloc, bytes, check, at)? {
        None => Ok(()),
        Some((item, _)) => {
            let place = place_of(&item);
            drop(item);
            Err(refused(check, place, ReplyCause::Count))
        }
    }
}

/// The statements of the replies from an offset on: one for each problem, in order. A reply is the symbol `fail` or
/// `infeasible`, or a list with a definition of each function to be found, in any order; with proofs, a list of
/// definitions has a proof behind it, which is a list that begins with `tree` in LIA and with `log` in BV. The first
/// condition that doesn't hold is told with its place, and with the number of the `check-synth` whose reply it is,
/// counted from 1: `Text`, a fault of the text; `Count` at the end where a reply is missing, and at an item behind the
/// last one; `Shape`, `Name`, `Signature` and `Term` in a reply; `ProofShape` at the end where a proof is missing, and
/// at an item that is none. Out of memory is `Want`.
pub fn read_reply<T: Theory>(
    alloc: Global,
    bytes: &[u8],
    at: usize,
    logic: Logic,
    titles: &Titles,
    problems: &Seq<Problem<T>>,
    proofs: bool,
) -> Result<Seq<Stated<T>>, ReplyEnd>
    requires at { at ≤ length bytes.now }
    requires theory { IsTheoryOf logic T.owned T.numeric }
    requires few { length problems.now ≤ 16 }
    ensures read { ReadsReplies (map (statement_of T.denotes)) result
        (spec.statements_from proofs logic titles.now bytes.now 1 (map (question_of T.denotes) problems.now) at) }
    // One statement for each problem, with bodies that fit it.
    ensures fit { IfOk result (AreStatedFor T.Theory problems.now) }
{
    let source = Source {
        bytes,
        logic,
        titles,
        proofs,
    };
    let mut stated = Seq::new(alloc);
    let mut next = at;
    let mut check: u32 = 1;
    for problem in problems.as_slice() {
        let (statement, behind) = statement_read(alloc, source, check, problem, next)?;
        stated.push(statement)?;
        next = behind;
        check += 1;
    }
    nothing_left(alloc, bytes, check, next)?;
    Ok(stated)
}
