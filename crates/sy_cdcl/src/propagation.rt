// Unit propagation.
ghost use Rattle.std.specs.Prelude.{◌≡◌, ◌<◌, ◌≤◌, ◌+◌, ◌++◌, ◌∷◌, ℕ, [], not, true, false, length, vec_len, slice_get, Some, None, OnOk, IfOk, MatchOption, MatchBool, ◌⊎◌};
ghost use Rattle.sy_clauses.specs.New.{AllSettled, IsFalse, HasTrue};
ghost use Rattle.sy_clauses.specs.Clauses.{literals, same_literal, IsEmpty};
ghost use Rattle.sy_cdcl.specs.Storing.{clauses_in, SpansFit};
ghost use Rattle.sy_cdcl.specs.Trails.{kept_values, TrailIsReady, TrailExtends, VarsBelow, LevelsSettled};
ghost use Rattle.sy_cdcl.specs.Status.{IsConflict};
ghost use Rattle.sy_cdcl.specs.Watching.{AllWatched, IsWatching, IsAttached, pair_of};
ghost use Rattle.sy_cdcl_literals.specs.Suiting.{IsFalseBut, IsOther, Suits};
ghost use Rattle.sy_cdcl.specs.Visits.{SuitsAt, MayForce, IsOnly, IsAnother};

use crate::store::{Code, Store};
use crate::trail::Trail;
use crate::watches::{Watches, list_index};
use std::alloc::{AllocError, Global};
use sy_cdcl_literals::{Entry, Outcome, Pair, Truth, outcome_of};
use sy_clauses::Lit;
use sy_seq::Want;

/// Whether the two are one literal.
pub fn is_same(a: Lit, b: Lit) -> bool
    ensures { result ≡ same_literal a.var a.positive b.var b.positive }
{
    b.var == a.var && b.positive == a.positive
}

/// The literal with the other sign.
fn negated(literal: Lit) -> Lit
    ensures var { result.var ≡ literal.var }
    ensures sign { result.positive ≡ not literal.positive }
{
    Lit {
        var: literal.var,
        positive: !literal.positive,
    }
}

/// The literal of the pair beside this one, where this is one of them. The two are compared by one
/// number each, so that the processor can choose without a branch.
fn other_of(pair: Pair, literal: Lit) -> Lit
    ensures one { (result ≡ pair.first) ⊎ (result ≡ pair.second) }
    ensures apart { same_literal pair.first.var pair.first.positive pair.second.var pair.second.positive ≡ false →
        same_literal result.var result.positive literal.var literal.positive ≡ false }
{
    if list_index(pair.first) == list_index(literal) {
        pair.second
    } else {
        pair.first
    }
}

/// A literal of a clause, and its place there.
#[derive(Clone, Copy, Drop)]
pub struct Found {
    pub literal: Lit,
    pub place: usize,
}

/// A literal of the clause that isn't false, other than this one. The search begins at a place, and
/// goes on from the clause's beginning.
fn find_other(trail: &Trail, clause: &[Code], other: Lit, from: usize) -> Option<Found>
    ensures { MatchOption result
        (IsFalseBut (kept_values trail.now.values.items) (literals clause.now) other)
        (λ f. IsOther (kept_values trail.now.values.items) (literals clause.now) other f.literal) }
{
    let start = if from < clause.len() { from } else { 0 };
    let mut place = start;
    for _ in 0..clause.len() {
        let literal = clause[place].literal();
        if !trail.is_false(literal) && !is_same(other, literal) {
            return Some(Found { literal, place });
        }
        place += 1;
        if place >= clause.len() {
            place = 0;
        }
    }
    None
}

/// Looks for another literal to watch, from a place on. This one is the other one that is watched.
fn inspect(trail: &Trail, clause: &[Code], other: Lit, from: usize) -> Outcome
    requires { literals clause.now other.var other.positive ≡ true }
    ensures { Suits (kept_values trail.now.values.items) (literals clause.now) other result }
{
    if let Some(found) = find_other(trail, clause, other, from) {
        let pair = Pair {
            first: other,
            second: found.literal,
        };
        return Outcome::Move(pair, found.place);
    }
    outcome_of(trail.truth(other), other)
}

/// What becomes of the clause of this number, where the literal has become false.
fn judge(watches: &Watches, trail: &Trail, store: &Store, number: u32, falsified: Lit) -> Outcome
    requires fit { SpansFit store.now }
    requires agrees { TrailIsReady (clauses_in store.now) trail.now }
    requires watched { AllWatched (clauses_in store.now) trail.now watches.now.head watches.now.pairs.items }
    ensures { SuitsAt (clauses_in store.now)
        (kept_values trail.now.values.items) watches.now.pairs.items falsified number result }
{
    let Some(pair) = watches.pair(number) else {
        return Outcome::Stay;
    };
    let other = other_of(pair, falsified);
    if trail.is_true(other) {
        return Outcome::Stay;
    }
    let Some(clause) = store.clause(number) else {
        return Outcome::Stay;
    };
    inspect(trail, clause, other, watches.hint(number))
}

/// Makes the last literal of a unit clause true, with the clause's number as the reason.
fn force(trail: &mut Trail, store: &Store, number: u32, literal: Lit) -> Result<(), Want>
    requires ready { TrailIsReady (clauses_in store.now) trail.old }
    requires vars { VarsBelow (vec_len trail.old.values) (clauses_in store.now) }
    requires unit { MayForce (clauses_in store.now) (kept_values trail.old.values.items) number literal }
    ensures ready { OnOk result (TrailIsReady (clauses_in store.now) trail.new) }
    ensures entries { OnOk result (trail.new.entries.items ≡
        trail.old.entries.items ++ record { literal = literal; reason = Some number } ∷ []) }
    ensures extends { OnOk result (TrailExtends trail.old trail.new) }
{
    trail.assign(literal, Some(number))?;
    Ok(())
}

/// Visits the clauses that watch the literal that the entry has made false; one that is false.
fn visit(
    watches: &mut Watches,
    trail: &mut Trail,
    store: &Store,
    entry: Entry,
) -> Result<Option<u32>, Want>
    requires fit { SpansFit store.now }
    requires ready { TrailIsReady (clauses_in store.now) trail.old }
    requires vars { VarsBelow (vec_len trail.old.values) (clauses_in store.now) }
    requires watching { IsWatching (clauses_in store.now) trail.old watches.old }
    requires at { slice_get trail.old.entries.items watches.old.head ≡ Some entry }
    ensures ready { OnOk result (TrailIsReady (clauses_in store.now) trail.new) }
    ensures extends { OnOk result (TrailExtends trail.old trail.new) }
    ensures watching { OnOk result (IsWatching (clauses_in store.now) trail.new watches.new) }
    ensures head { OnOk result (watches.new.head ≡ watches.old.head) }
    ensures ends { IfOk result (λ conflict. MatchOption conflict
        (AllWatched (clauses_in store.now) trail.new (watches.new.head + 1) watches.new.pairs.items)
        (λ number. IsConflict (clauses_in store.now) (kept_values trail.new.values.items) number)) }
{
    let falsified = negated(entry.literal);
    let list = list_index(falsified);
    let mut place = 0;
    while let Some(number) = watches.watcher(list, place) {
        match judge(watches, trail, store, number, falsified) {
            Outcome::Stay => {
                place += 1;
                continue;
            }
            Outcome::Move(pair, found) => {
                watches.change(list, place, number, pair, found)?;
                continue;
            }
            Outcome::Force(literal) => {
                force(trail, store, number, literal)?;
                place += 1;
                continue;
            }
            Outcome::Conflict => return Ok(Some(number)),
        }
    }
    Ok(None)
}

/// Assigns what the clauses force until all are settled, or one is false; its number.
pub fn propagate(
    watches: &mut Watches,
    trail: &mut Trail,
    store: &Store,
) -> Result<Option<u32>, Want>
    requires fit { SpansFit store.now }
    requires ready { TrailIsReady (clauses_in store.now) trail.old }
    requires vars { VarsBelow (vec_len trail.old.values) (clauses_in store.now) }
    requires watching { IsWatching (clauses_in store.now) trail.old watches.old }
    ensures ready { OnOk result (TrailIsReady (clauses_in store.now) trail.new) }
    ensures extends { OnOk result (TrailExtends trail.old trail.new) }
    ensures watching { OnOk result (IsWatching (clauses_in store.now) trail.new watches.new) }
    ensures ends { IfOk result (λ conflict. MatchOption conflict
        ((watches.new.head ≡ length trail.new.entries.items)
        × AllSettled (kept_values trail.new.values.items) (clauses_in store.now))
        (λ number. IsConflict (clauses_in store.now) (kept_values trail.new.values.items) number)) }
{
    while watches.head < trail.entries.len() {
        let entry = trail.entry_at(watches.head);
        if let Some(number) = visit(watches, trail, store, entry)? {
            return Ok(Some(number));
        }
        watches.head += 1;
    }
    Ok(None)
}

/// The first literal of the clause.
fn first_of(clause: &[Code]) -> Option<Lit>
    ensures { MatchOption result (IsEmpty (literals clause.now)) (λ l. literals clause.now l.var l.positive ≡ true) }
{
    match clause.get(0) {
        Some(code) => Some(code.literal()),
        None => None,
    }
}

/// The first literal of the clause other than this one.
fn another(clause: &[Code], literal: Lit) -> Option<Lit>
    ensures { MatchOption result (IsOnly (literals clause.now) literal) (λ other.
        IsAnother (literals clause.now) literal other) }
{
    for code in clause {
        let other = code.literal();
        if !is_same(literal, other) {
            return Some(other);
        }
    }
    None
}

/// Makes the only literal of a clause true; whether it can be.
fn settle(
    trail: &mut Trail,
    store: &Store,
    number: u32,
    clause: &[Code],
    literal: Lit,
) -> Result<bool, Want>
    requires ready { TrailIsReady (clauses_in store.now) trail.old }
    requires vars { VarsBelow (vec_len trail.old.values) (clauses_in store.now) }
    requires at { slice_get (clauses_in store.now) number ≡ Some (literals clause.now) }
    requires has { literals clause.now literal.var literal.positive ≡ true }
    requires only { IsOnly (literals clause.now) literal }
    ensures ready { OnOk result (TrailIsReady (clauses_in store.now) trail.new) }
    ensures extends { OnOk result (TrailExtends trail.old trail.new) }
    ensures ends { IfOk result (λ done. MatchBool done
        (HasTrue (kept_values trail.new.values.items) (literals clause.now))
        (IsFalse (kept_values trail.new.values.items) (literals clause.now))) }
{
    match trail.truth(literal) {
        Truth::False => Ok(false),
        Truth::True => Ok(true),
        Truth::Open => {
            force(trail, store, number, literal)?;
            Ok(true)
        }
    }
}

/// Watches the next clause, or makes its only literal true; whether it can be made true.
fn attach_clause(
    watches: &mut Watches,
    trail: &mut Trail,
    store: &Store,
    number: u32,
    clause: &[Code],
) -> Result<bool, Want>
    requires ready { TrailIsReady (clauses_in store.now) trail.old }
    requires vars { VarsBelow (vec_len trail.old.values) (clauses_in store.now) }
    requires attached { IsAttached (clauses_in store.now) trail.old watches.old number }
    requires at { slice_get (clauses_in store.now) number ≡ Some (literals clause.now) }
    ensures ready { OnOk result (TrailIsReady (clauses_in store.now) trail.new) }
    ensures extends { OnOk result (TrailExtends trail.old trail.new) }
    ensures ends { IfOk result (λ done. MatchBool done
        (IsAttached (clauses_in store.now) trail.new watches.new (number + 1))
        (IsFalse (kept_values trail.new.values.items) (literals clause.now))) }
{
    let Some(first) = first_of(clause) else {
        return Ok(false);
    };
    if let Some(second) = another(clause, first) {
        watches.watch(number, Pair { first, second })?;
        return Ok(true);
    }
    if !settle(trail, store, number, clause, first)? {
        return Ok(false);
    }
    watches.skip()?;
    Ok(true)
}

/// Watches each clause, and makes those of one literal true; one that is false.
pub fn attach(
    watches: &mut Watches,
    trail: &mut Trail,
    store: &Store,
    count: u32,
) -> Result<Option<u32>, Want>
    requires fit { SpansFit store.now }
    requires ready { TrailIsReady (clauses_in store.now) trail.old }
    requires vars { VarsBelow (vec_len trail.old.values) (clauses_in store.now) }
    requires attached { IsAttached (clauses_in store.now) trail.old watches.old 0 }
    requires count { length (clauses_in store.now) ≡ count }
    ensures ready { OnOk result (TrailIsReady (clauses_in store.now) trail.new) }
    ensures extends { OnOk result (TrailExtends trail.old trail.new) }
    ensures ends { IfOk result (λ conflict. MatchOption conflict
        (IsWatching (clauses_in store.now) trail.new watches.new)
        (λ number. IsConflict (clauses_in store.now) (kept_values trail.new.values.items) number)) }
{
    for number in 0..count {
        let Some(clause) = store.clause(number) else {
            continue;
        };
        if !attach_clause(watches, trail, store, number, clause)? {
            return Ok(Some(number));
        }
    }
    Ok(None)
}
