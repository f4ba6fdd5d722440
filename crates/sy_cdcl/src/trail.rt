// The solver's assignment, in the order in which it was made.
ghost use Rattle.std.specs.Prelude.{◌≡◌, ℕ, Option, Some, None, [], ◌∷◌, ◌++◌, ◌<◌, ◌≤◌, ◌-◌, ◌+◌, length, vec_len, take, IfOk, OnOk, slice_index_or, slice_get, MatchBool, ◌≢◌, not};
ghost use Rattle.sy_cdcl.specs.Trails.{kept_values, entries_values, IsTrail, ValuesAgree, level_start, unvalued_count, EachOnce};
ghost use Rattle.sy_cdcl_literals.specs.Suiting.{IsTruthOf};
ghost use Rattle.sy_cdcl.specs.Codes.{value_of};

use crate::order::Order;
use std::alloc::{AllocError, Global};
use std::marker::Model;
use sy_cdcl_literals::{Entry, Truth};
use sy_clauses::Lit;
use sy_seq::Want;

/// A variable's value, or none, in one byte, so that it is compared at once.
#[derive(Drop)]
pub struct Held {
    code: u8,
}

/// The code of no value.
const OPEN: u8 = 2;

impl Model for Held {
    ghost use Rattle.std.specs.Prelude.{Option, Bool};
    ghost use Rattle.sy_cdcl.specs.Codes.{value_of};

    ghost Value = { Option Bool };

    ghost view = { λ held. value_of held.code };
}

/// The code of a value.
fn code_of(value: bool) -> u8
    ensures { value_of result ≡ Some value }
{
    if value { 1 } else { 0 }
}

impl Held {
    /// No value.
    fn open() -> Self
        ensures { result ≡ None }
    {
        Held { code: OPEN }
    }

    /// This value.
    fn of(value: bool) -> Self
        ensures { result ≡ Some value }
    {
        Held {
            code: code_of(value),
        }
    }

    /// The value.
    pub fn get(&self) -> Option<bool>
        ensures { result ≡ self.now }
    {
        if self.code == 0 {
            return Some(false);
        }
        if self.code == 1 {
            return Some(true);
        }
        None
    }

    /// Whether it is this value.
    fn is(&self, value: bool) -> bool
        ensures { MatchBool result (self.now ≡ Some value) (self.now ≢ Some value) }
    {
        self.code == code_of(value)
    }
}

/// The values by variable, the literals that are true in order, and where each level above the
/// lowest begins among them.
#[derive(Drop)]
pub struct Trail {
    pub values: Vec<Held>,
    pub entries: Vec<Entry>,
    pub starts: Vec<usize>,
}

impl Trail {
    /// No variable of so many has a value.
    pub fn new(alloc: Global, vars: u32) -> Result<Trail, Want>
        ensures empty { IfOk result (λ t. t.entries.items ≡ []) }
        ensures lowest { IfOk result (λ t. t.starts.items ≡ []) }
        ensures vars { IfOk result (λ t. vec_len t.values ≡ vars) }
        ensures assignment { IfOk result (λ t. IsTrail t) }
    {
        let mut values = Vec::new(alloc);
        for _ in 0..vars {
            values.push(Held::open())?;
        }
        Ok(Trail {
            values,
            entries: Vec::new(alloc),
            starts: Vec::new(alloc),
        })
    }

    /// The variable's value.
    pub fn value(&self, var: u32) -> Option<bool>
        ensures { result ≡ kept_values self.now.values.items var }
    {
        match self.values.get(var as usize) {
            Some(held) => held.get(),
            None => None,
        }
    }

    /// The literal's value.
    pub fn truth(&self, literal: Lit) -> Truth
        ensures { IsTruthOf (kept_values self.now.values.items) literal result }
    {
        match self.value(literal.var) {
            Some(true) => if literal.positive {
                Truth::True
            } else {
                Truth::False
            },
            Some(false) => if literal.positive {
                Truth::False
            } else {
                Truth::True
            },
            None => Truth::Open,
        }
    }

    /// Whether the literal is true.
    pub fn is_true(&self, literal: Lit) -> bool
        ensures { MatchBool result
            (kept_values self.now.values.items literal.var ≡ Some literal.positive)
            (kept_values self.now.values.items literal.var ≢ Some literal.positive) }
    {
        match self.values.get(literal.var as usize) {
            Some(held) => held.is(literal.positive),
            None => false,
        }
    }

    /// Whether the literal is false.
    pub fn is_false(&self, literal: Lit) -> bool
        ensures { MatchBool result
            (kept_values self.now.values.items literal.var ≡ Some (not literal.positive))
            (kept_values self.now.values.items literal.var ≢ Some (not literal.positive)) }
    {
        match self.values.get(literal.var as usize) {
            Some(held) => held.is(!literal.positive),
            None => false,
        }
    }

    /// The entry at a place.
    pub fn entry_at(&self, place: usize) -> Entry
        requires { place < length self.now.entries.items }
        ensures { slice_get self.now.entries.items place ≡ Some result }
    {
        self.entries[place]
    }

    /// Makes the literal true.
    #[tactic(auto, using(crate::proofs::Values::value_push_same, crate::proofs::Values::value_push_other))]
    pub fn assign(&mut self, literal: Lit, reason: Option<u32>) -> Result<(), Want>
        requires within { literal.var < vec_len self.old.values }
        requires unvalued { kept_values self.old.values.items literal.var ≡ None }
        requires agrees { ValuesAgree self.old }
        ensures entries { OnOk result (self.new.entries.items ≡
            self.old.entries.items ++ record { literal = literal; reason = reason } ∷ []) }
        ensures starts { self.new.starts.items ≡ self.old.starts.items }
        ensures vars { OnOk result (vec_len self.new.values ≡ vec_len self.old.values) }
        ensures agrees { OnOk result (ValuesAgree self.new) }
        ensures fewer { OnOk result (unvalued_count self.new + 1 ≡ unvalued_count self.old) }
    {
        let index = literal.var as usize;
        self.entries.push(Entry { literal, reason })?;
        self.values[index] = Held::of(literal.positive);
        Ok(())
    }

    /// Where the present level begins.
    pub fn level_start(&self) -> usize
        ensures { result ≡ level_start self.now.starts.items }
    {
        match self.starts.last() {
            Some(start) => *start,
            None => 0,
        }
    }

    /// Takes the last literal back; its variable may be decided again.
    fn undo(&mut self, order: &mut Order)
        requires some { 0 < length self.old.entries.items }
        requires agrees { ValuesAgree self.old }
        requires once { EachOnce self.old.entries.items }
        ensures entries { self.new.entries.items ≡ take (length self.old.entries.items - 1) self.old.entries.items }
        ensures starts { self.new.starts.items ≡ self.old.starts.items }
        ensures vars { vec_len self.new.values ≡ vec_len self.old.values }
        ensures agrees { ValuesAgree self.new }
    {
        if let Some(entry) = self.entries.pop() {
            let index = entry.literal.var as usize;
            order.restore(entry.literal.var, entry.literal.positive);
            if index < self.values.len() {
                self.values[index] = Held::open();
            }
        }
    }

    /// Takes the present level back.
    pub fn leave_level(&mut self, order: &mut Order)
        requires level { 0 < length self.old.starts.items }
        requires assignment { IsTrail self.old }
        ensures entries { self.new.entries.items ≡ take (level_start self.old.starts.items) self.old.entries.items }
        ensures starts { self.new.starts.items ≡ take (length self.old.starts.items - 1) self.old.starts.items }
        ensures vars { vec_len self.new.values ≡ vec_len self.old.values }
        ensures assignment { IsTrail self.new }
    {
        if let Some(start) = self.starts.pop() {
            while self.entries.len() > start {
                self.undo(order);
            }
        }
    }
}
