// Files.
ghost use Rattle.std.specs.Prelude.{◌≡◌, ◌≤◌, ◌<◌, length, IfOk, IfSome, OnOk};
ghost use Rattle.sy_text.specs.Reading as reading;
ghost use Rattle.sy_text_items.specs.Views.{command_of};
ghost use Rattle.sy_terms.specs.Logics.{IsTheoryOf, Serves};
ghost use Rattle.sy_scope_names.specs.Asked.{request_in};
ghost use Rattle.sy_text_items.specs.Views.{item_of};
ghost use Rattle.sy_forms_items.specs.Readings.{ReadingGives};
ghost use Rattle.sy_scope_names.specs.Contexts as contexts;
ghost use Rattle.sy_scope_steps.specs.Files as spec;
ghost use Rattle.sy_scope_names.specs.Jobs.{wished};
ghost use Rattle.sy_scope.specs.Read.{ReadsFile, LeadsToOutcome, OpensAs, opened_by, wish_in, wish_over};
ghost use Rattle.sy_scope.specs.Fit.{ProblemsFit, JobFits};
ghost use Rattle.sy_scope_declared.specs.Seen.{context_of};
ghost use Rattle.sy_scope_names.specs.Changes as changes;
ghost use Rattle.sy_scope_steps.specs.Steps as steps;

use crate::commands::step;
use crate::job::Job;
use std::alloc::Global;
use std::mem::replace;
use sy_forms::{ReadEnd, is};
use sy_grammar_base::Problem;
use sy_meaning_integers::IntTheory;
use sy_meaning_words::BvTheory;
use sy_scope_causes::{Cause, Refused, Titles};
use sy_scope_declared::{Asked, Context, check_feature, read_request};
use sy_scope_ends::{ScopeEnd, ended, numbered};
use sy_scope_names::Request;
use sy_terms::{Logic, Seq, Theory};
use sy_text::{TextEnd, next_command};
use sy_text_items::{Place, Sexp, TextFault};

/// The commands up to the one that sets the logic are done: the logic, and the offset and the number of the next one.
#[derive(Clone, Copy)]
struct Opened {
    logic: Logic,
    at: usize,
    command: u32,
}

/// The offset of a fault of the text.
fn offset_of(fault: TextFault) -> usize
    ensures { result ≡ reading.offset_of fault }
{
    match fault {
        TextFault::BadByte(at) => at,
        TextFault::Unclosed(at) => at,
        TextFault::Stray(at) => at,
        TextFault::LiteralRange(at) => at,
        TextFault::TooDeep(at) => at,
    }
}

/// The command of this number, from an offset on, and the offset behind it.
fn next(
    alloc: Global,
    bytes: &[u8],
    at: usize,
    command: u32,
) -> Result<Option<(Sexp, usize)>, ScopeEnd>
    requires { at ≤ length bytes.now }
    ensures read { ReadsFile command_of result (spec.command_read bytes.now command at) }
    ensures forward { IfOk result (λ answer. IfSome answer (λ x. (at < x.1) × (x.1 ≤ length bytes.now))) }
{
    match next_command(alloc, bytes, at) {
        Ok(found) => Ok(found),
        Err(TextEnd::Fault(fault)) => Err(ScopeEnd::Refused(Refused {
            command,
            place: Place {
                at: offset_of(fault),
            },
            cause: Cause::Text(fault),
        })),
        Err(TextEnd::Want) => Err(ScopeEnd::Want),
    }
}

/// The logic of this name.
fn logic_named(name: &[u8]) -> Option<Logic>
    ensures { result ≡ changes.logic_named name.now }
{
    if is(name, b"BV") {
        Some(Logic::Bv)
    } else if is(name, b"LIA") {
        Some(Logic::Lia)
    } else {
        None
    }
}

/// The logic that is set by a command before which none was.
#[tactic(auto, unfolding(sy_scope_steps::specs::Steps::perform_first))]
fn first_logic(asked: Asked<'_>) -> Result<Option<Logic>, ReadEnd>
    ensures { ReadingGives opened_by result
        (steps.perform_first contexts.beginning asked.entry.at (request_in asked.entry.request)) }
{
    match asked.request {
        Request::SetLogic(name) => match logic_named(name.name.as_slice()) {
            Some(logic) => Ok(Some(logic)),
            None => Err(ReadEnd::Refused(name.place, Cause::Logic)),
        },
        Request::SetFeature(feature, on) => {
            check_feature(feature, on)?;
            Ok(None)
        }
        Request::Note => Ok(None),
        _ => Err(ReadEnd::Refused(asked.at, Cause::Logic)),
    }
}

/// The logic that is set by the command that the item is, before which none was.
#[tactic(auto, unfolding(sy_scope_steps::specs::Steps::step))]
fn open_with(item: &Sexp) -> Result<Option<Logic>, ReadEnd>
    ensures { ReadingGives opened_by result (steps.step contexts.beginning (item_of item.now)) }
{
    let asked = read_request(item)?;
    let logic = first_logic(asked)?;
    Ok(logic)
}

/// The commands up to the one that sets the logic; `None` where the file sets none.
fn read_opening(alloc: Global, bytes: &[u8]) -> Result<Option<Opened>, ScopeEnd>
    requires { length bytes.now ≤ 4194304 }
    ensures { OpensAs bytes.now result (spec.file_read bytes.now) }
{
    let mut at = 0;
    let mut command = 1;
    while let Some((item, after)) = next(alloc, bytes, at, command)? {
        let opening = open_with(&item);
        drop(item);
        let logic = match opening {
            Ok(logic) => logic,
            Err(end) => return Err(ended(command, end)),
        };
        at = after;
        command += 1;
        if let Some(logic) = logic {
            return Ok(Some(Opened { logic, at, command }));
        }
    }
    Ok(None)
}

/// Takes the context of a file in which only the logic was set to the one after all commands behind.
fn read_commands<T: Theory>(
    alloc: Global,
    bytes: &[u8],
    opened: Opened,
    context: &mut Context<T>,
) -> Result<(), ScopeEnd>
    requires short { length bytes.now ≤ 4194304 }
    requires serves { Serves T.numeric opened.logic }
    requires theory { IsTheoryOf opened.logic T.owned T.numeric }
    requires begun { context_of T.denotes context.old ≡ contexts.with_logic opened.logic contexts.beginning }
    requires logic { context.old.logic ≡ opened.logic }
    requires opened { LeadsToOutcome bytes.now opened.at opened.command
        (contexts.with_logic opened.logic contexts.beginning) (spec.file_read bytes.now) }
    ensures read { ReadsFile (λ _. context_of T.denotes context.new) result (spec.file_read bytes.now) }
    ensures logic { OnOk result (context.new.logic ≡ opened.logic) }
{
    let mut at = opened.at;
    let mut command = opened.command;
    while let Some((item, after)) = next(alloc, bytes, at, command)? {
        let stepped = step(alloc, context, &item);
        drop(item);
        numbered(command, stepped)?;
        at = after;
        command += 1;
    }
    Ok(())
}

/// What a file of a theory's logic asks, and the names of its functions, by the context in which only the logic was
/// set. The context is of no further use.
fn read_by<T: Theory>(
    alloc: Global,
    bytes: &[u8],
    opened: Opened,
    context: &mut Context<T>,
) -> Result<(Seq<Problem<T>>, Titles), ScopeEnd>
    requires short { length bytes.now ≤ 4194304 }
    requires serves { Serves T.numeric opened.logic }
    requires theory { IsTheoryOf opened.logic T.owned T.numeric }
    requires begun { context_of T.denotes context.old ≡ contexts.with_logic opened.logic contexts.beginning }
    requires logic { context.old.logic ≡ opened.logic }
    requires opened { LeadsToOutcome bytes.now opened.at opened.command
        (contexts.with_logic opened.logic contexts.beginning) (spec.file_read bytes.now) }
    ensures read { ReadsFile (wish_over T.denotes opened.logic) result (wished (spec.file_read bytes.now)) }
    ensures fit { IfOk result (λ x. ProblemsFit T.owned T.numeric T.denotes x.0) }
{
    read_commands(alloc, bytes, opened, context)?;
    let titles = context.titles(alloc)?;
    let questions = replace(&mut context.questions, Seq::new(alloc));
    Ok((questions, titles))
}

/// What a file of a theory's logic asks, and the names of its functions.
fn read_in<T: Theory>(
    alloc: Global,
    bytes: &[u8],
    opened: Opened,
) -> Result<(Seq<Problem<T>>, Titles), ScopeEnd>
    requires short { length bytes.now ≤ 4194304 }
    requires serves { Serves T.numeric opened.logic }
    requires theory { IsTheoryOf opened.logic T.owned T.numeric }
    requires opened { LeadsToOutcome bytes.now opened.at opened.command
        (contexts.with_logic opened.logic contexts.beginning) (spec.file_read bytes.now) }
    ensures read { ReadsFile (wish_over T.denotes opened.logic) result (wished (spec.file_read bytes.now)) }
    ensures fit { IfOk result (λ x. ProblemsFit T.owned T.numeric T.denotes x.0) }
{
    let mut context = Context::new(alloc, opened.logic);
    let read = read_by(alloc, bytes, opened, &mut context);
    drop(context);
    read
}

/// Reads a file of at most 4,194,304 bytes. `Ok` comes exactly where it is in the profile, with a problem for each
/// `check-synth`, in order, and the names of its functions; `Idle` where no logic was set. Else the first faulty
/// command is told, counted from 1, with its first condition that doesn't hold. All terms and grammars of the problems
/// fit. Out of memory is also answered where 32 bits don't count names, arguments or variables in force, or an
/// invariant's variables come behind 2^31 others; a file of this length has fewer, which no clause says.
pub fn read_file(alloc: Global, bytes: &[u8]) -> Result<Job, ScopeEnd>
    requires { length bytes.now ≤ 4194304 }
    ensures read { ReadsFile wish_in result (wished (spec.file_read bytes.now)) }
    ensures fit { IfOk result JobFits }
{
    let Some(opened) = read_opening(alloc, bytes)? else {
        return Ok(Job::Idle);
    };
    match opened.logic {
        Logic::Lia => {
            let (problems, titles) = read_in::<IntTheory>(alloc, bytes, opened)?;
            Ok(Job::Ints(problems, titles))
        }
        Logic::Bv => {
            let (problems, titles) = read_in::<BvTheory>(alloc, bytes, opened)?;
            Ok(Job::Bits(problems, titles))
        }
    }
}
