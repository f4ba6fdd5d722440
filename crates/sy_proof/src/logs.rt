// Resolution logs in text.
ghost use Rattle.std.specs.Prelude.{◌≡◌, ◌++◌, ◌∷◌, [], ℕ, List, All, OnOk, IfOk};
ghost use Rattle.std.specs.Option.{option_map};
ghost use Rattle.sy_text_items.specs.Views.{item_of};
ghost use Rattle.sy_text.specs.Reading.{command_at};
ghost use Rattle.sy_text.specs.Spelling.{item_text};
ghost use Rattle.sy_forms_items.specs.Views.{items_in};
ghost use Rattle.sy_proof.specs.Lists.{each_in, each_item, spaced};
ghost use Rattle.sy_proof.specs.Logs.{line_in, line_item, log_in, log_item, steps_in, step_text, steps_items, LineIsSmall, StepIsSmall, ReadsLog};

use crate::numbers::{put_number, small};
use crate::words::behind_word;
use std::alloc::Global;
use sy_clauses::{Line, Log, Step};
use sy_forms_items::Rest;
use sy_io::Bytes;
use sy_seq::{Seq, Want};
use sy_text_items::Sexp;

/// The log that the item is: `(log l ..)`, each line `(first v c v c ..)`, where all numbers are below 2^32. `None`
/// exactly where the item isn't of this form.
pub fn read_log(alloc: Global, s: &Sexp) -> Result<Option<Log>, Want>
    ensures { IfOk result (λ found. option_map (λ log. log.lines) found ≡ log_in (item_of s.now)) }
{
    let Some(items) = behind_word(s, b"log") else {
        return Ok(None);
    };
    match read_lines(alloc, items)? {
        Some(lines) => Ok(Some(Log { lines })),
        None => Ok(None),
    }
}

/// The lines that the items are; `None` exactly where one is no line.
fn read_lines(alloc: Global, items: Rest<'_>) -> Result<Option<Seq<Line>>, Want>
    ensures { IfOk result (λ found. found ≡ each_in line_in (items_in items.entry)) }
{
    let mut lines = Seq::new(alloc);
    let mut left = items;
    while let Some((item, rest)) = left.split() {
        let Some(line) = read_line(alloc, item)? else {
            return Ok(None);
        };
        lines.push(line)?;
        left = rest;
    }
    Ok(Some(lines))
}

/// The line that the item is; `None` exactly where it is none.
fn read_line(alloc: Global, item: &Sexp) -> Result<Option<Line>, Want>
    ensures { IfOk result (λ found. found ≡ line_in (item_of item.now)) }
{
    let Sexp::List(parts, _) = item else {
        return Ok(None);
    };
    let Some((first, rest)) = Rest::all(parts).split() else {
        return Ok(None);
    };
    let Some(first) = small(first) else {
        return Ok(None);
    };
    match read_steps(alloc, rest)? {
        Some(steps) => Ok(Some(Line { first, steps })),
        None => Ok(None),
    }
}

/// The steps that the items are, two for each; `None` exactly where one is no number, or one is left over.
fn read_steps(alloc: Global, items: Rest<'_>) -> Result<Option<Seq<Step>>, Want>
    ensures { IfOk result (λ found. found ≡ steps_in (items_in items.entry)) }
{
    let mut steps = Seq::new(alloc);
    let mut left = items;
    while let Some((var, rest)) = left.split() {
        let Some((clause, rest)) = rest.split() else {
            return Ok(None);
        };
        let (Some(var), Some(with)) = (small(var), small(clause)) else {
            return Ok(None);
        };
        steps.push(Step { var, with })?;
        left = rest;
    }
    Ok(Some(steps))
}

/// The log as text, and byte 10.
pub fn write_log(alloc: Global, log: &Log) -> Result<Bytes, Want>
    ensures text { IfOk result (λ text. text ≡ item_text (log_item log.now.lines) ++ 10 ∷ []) }
    // What is written is read as the same log, whatever follows.
    ensures again { IfOk result (λ text. (total : ℕ) (rest : List ℕ) → ReadsLog log.now.lines
        (command_at total (text ++ rest))) }
{
    let mut out = Bytes::new(alloc);
    out.append(b"(log")?;
    put_lines(&mut out, log.lines.as_slice())?;
    out.append(b")\n")?;
    Ok(out)
}

/// Appends the lines, each behind one space.
fn put_lines(out: &mut Bytes, lines: &[Line]) -> Result<(), Want>
    ensures text { OnOk result (out.new ≡ out.old ++ spaced (each_item line_item lines.now)) }
    ensures small { OnOk result (All LineIsSmall lines.now) }
{
    for line in lines {
        put_line(out, line)?;
    }
    Ok(())
}

/// Appends one space and the line.
fn put_line(out: &mut Bytes, line: &Line) -> Result<(), Want>
    ensures text { OnOk result (out.new ≡ out.old ++ 32 ∷ item_text (line_item line.now)) }
    ensures small { OnOk result (LineIsSmall line.now) }
{
    out.append(b" (")?;
    put_number(out, line.first)?;
    put_steps(out, line.steps.as_slice())?;
    out.push(b')')?;
    Ok(())
}

/// Appends the steps, each number behind one space.
fn put_steps(out: &mut Bytes, steps: &[Step]) -> Result<(), Want>
    ensures text { OnOk result (out.new ≡ out.old ++ spaced (steps_items steps.now)) }
    ensures small { OnOk result (All StepIsSmall steps.now) }
{
    for step in steps {
        put_step(out, *step)?;
    }
    Ok(())
}

/// Appends the step's numbers, each behind one space.
fn put_step(out: &mut Bytes, step: Step) -> Result<(), Want>
    ensures text { OnOk result (out.new ≡ out.old ++ step_text step) }
    ensures small { OnOk result (StepIsSmall step) }
{
    out.push(b' ')?;
    put_number(out, step.var)?;
    out.push(b' ')?;
    put_number(out, step.with)?;
    Ok(())
}
