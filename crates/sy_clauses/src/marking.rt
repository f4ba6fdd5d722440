// Which lines of a log its last one needs.
ghost use Rattle.std.specs.Prelude.{◌≡◌, ◌≤◌, ◌==◌, ◌+◌, false, length, replicate, IfOk};
ghost use Rattle.sy_clauses.specs.Names.{names};
ghost use Rattle.sy_clauses.specs.Needed.{needs, AreNeeded, IsEarlierNamed, IsMarked};

use crate::Line;
use std::alloc::{AllocError, Global};
use sy_seq::Want;

/// Whether the line at this place is needed.
pub(crate) fn is_needed(needed: &[bool], place: usize) -> bool
    ensures { result ≡ needs needed.now place }
{
    match needed.get(place) {
        Some(mark) => *mark,
        None => false,
    }
}

/// Which lines the last one needs: itself, and all that a needed line names.
pub(crate) fn needed_lines(alloc: Global, formula: usize, lines: &[Line]) -> Result<Vec<bool>, Want>
    ensures { IfOk result (λ needed. AreNeeded formula lines.now (needs needed.items)) }
{
    let mut needed = Vec::from_elem(alloc, false, lines.len())?;
    mark_needed(&mut needed, formula, lines);
    Ok(needed)
}

/// Marks the lines that the last one needs, from the last one backwards.
fn mark_needed(needed: &mut [bool], formula: usize, lines: &[Line])
    requires { needed.old ≡ replicate (length lines.now) false }
    ensures long { length needed.new ≡ length needed.old }
    ensures needed { AreNeeded formula lines.now (needs needed.new) }
{
    mark_last(needed);
    let mut place = lines.len();
    while place > 0 {
        place -= 1;
        if is_needed(needed, place) {
            mark_named(needed, formula, place, &lines[place]);
        }
    }
}

/// Marks the last place.
fn mark_last(needed: &mut [bool])
    ensures { IsMarked (λ place. place + 1 ≡ length needed.old) needed.old needed.new }
{
    if let Some(last) = needed.last_mut() {
        *last = true;
    }
}

/// Marks each line before this place that the line names.
fn mark_named(needed: &mut [bool], formula: usize, place: usize, line: &Line)
    requires { place ≤ length needed.old }
    ensures { IsMarked (IsEarlierNamed formula place (names line.now)) needed.old needed.new }
{
    mark(needed, formula, place, line.first);
    for step in line.steps.as_slice() {
        mark(needed, formula, place, step.with);
    }
}

/// Marks the line of this number, if it is one before this place.
fn mark(needed: &mut [bool], formula: usize, place: usize, number: u32)
    requires { place ≤ length needed.old }
    ensures { IsMarked (IsEarlierNamed formula place (λ n. number == n)) needed.old needed.new }
{
    let number = number as usize;
    if number >= formula && number - formula < place {
        needed[number - formula] = true;
    }
}
