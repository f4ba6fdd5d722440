// Entries of an assignment, and which of them make marked literals false.
ghost use Rattle.std.specs.Prelude.{◌≡◌, ◌≤◌, ◌<◌, Some, not, length, slice_get, MatchBool};
ghost use Rattle.sy_clauses.specs.Marking.{clause_of};
ghost use Rattle.sy_cdcl_literals.specs.Falsified.{SomeFalsified, NoneFalsified};

use sy_clauses::{Lit, Marks};

/// A literal that is true: decided, or forced by the clause of a number.
#[derive(Clone, Copy, Drop)]
pub struct Entry {
    pub literal: Lit,
    pub reason: Option<u32>,
}

/// Whether the entry's literal makes a marked one false.
pub fn falsifies(entry: Entry, marks: &Marks) -> bool
    ensures { result ≡ clause_of marks.now entry.literal.var (not entry.literal.positive) }
{
    marks.has(entry.literal.var, !entry.literal.positive)
}

/// The entry at a place.
fn entry_at(entries: &[Entry], place: usize) -> Entry
    requires { place < length entries.now }
    ensures { slice_get entries.now place ≡ Some result }
{
    entries[place]
}

/// Whether an entry between the two places makes a marked literal false.
pub fn some_falsifies(entries: &[Entry], start: usize, end: usize, marks: &Marks) -> bool
    requires { end ≤ length entries.now }
    ensures { MatchBool result
        (SomeFalsified entries.now start end (clause_of marks.now))
        (NoneFalsified entries.now start end (clause_of marks.now)) }
{
    let mut place = end;
    while place > start {
        place -= 1;
        let entry = entry_at(entries, place);
        if falsifies(entry, marks) {
            return true;
        }
    }
    false
}

/// Whether, with so many levels above the lowest, one at least, no entry between the two places makes a marked literal
/// false.
pub fn is_last_hit(
    entries: &[Entry],
    levels: usize,
    start: usize,
    end: usize,
    marks: &Marks,
) -> bool
    requires { end ≤ length entries.now }
    ensures { MatchBool result
        ((0 < levels) × NoneFalsified entries.now start end (clause_of marks.now))
        (0 < levels → SomeFalsified entries.now start end (clause_of marks.now)) }
{
    if levels == 0 {
        return false;
    }
    !some_falsifies(entries, start, end, marks)
}
