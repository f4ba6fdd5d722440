// Gates that were made before, found again.
ghost use Rattle.std.specs.Prelude.{◌≡◌, ◌<◌, ◌^◌};
ghost use Rattle.sy_gates.specs.Keys as keys;

use crate::gate::Gate;
use std::alloc::Global;
use std::collections::HashMap;
use sy_clauses::Lit;
use sy_seq::Want;

/// More than the number of any literal.
const LITERALS: u128 = 1 << 33;

/// The places that gates have in a list.
#[derive(Drop)]
pub struct Table {
    places: HashMap<u128, u32>,
}

impl Table {
    ghost use Rattle.std.specs.Prelude.{◌≡◌, None, Some, OnOk, OnErr, option_map, cond, nat_eq};
    ghost use Rattle.std.specs.HashMap.{get};
    ghost use Rattle.sy_gates.specs.declared.gate.Gate.{Gate as Made};
    ghost use Rattle.sy_gates.specs.Keys.{gate_key, place_in};

    /// The table of no gates. It takes no memory.
    pub(crate) fn new(alloc: Global) -> Table
        ensures { (gate : Made) → place_in result gate ≡ None }
    {
        Table {
            places: HashMap::new(alloc),
        }
    }

    /// The place that the table has for the gate.
    pub(crate) fn place_of(&self, gate: Gate) -> Option<u32>
        ensures { result ≡ place_in self.now gate }
    {
        self.places.get(&key(gate)).copied()
    }

    /// Notes the place of a gate. On `Want` nothing changes.
    pub(crate) fn note(&mut self, gate: Gate, place: u32) -> Result<(), Want>
        ensures ok { OnOk result ((other : Made) → place_in self.new other ≡
            cond (nat_eq (gate_key gate) (gate_key other)) (Some place) (place_in self.old other)) }
        ensures err { OnErr result ((other : Made) → place_in self.new other ≡ place_in self.old other) }
    {
        self.places.insert(key(gate), place)?;
        Ok(())
    }
}

/// A number for the literal: twice its variable, and 1 more for its negation.
fn literal_key(literal: Lit) -> u128
    ensures value { result ≡ keys.literal_key literal }
    ensures bound { result < 2 ^ 33 }
{
    2 * u128::from(literal.var) + if literal.positive { 0 } else { 1 }
}

/// A number for the gate, and for no other one.
fn key(gate: Gate) -> u128
    ensures { result ≡ keys.gate_key gate }
{
    match gate {
        Gate::Constant(value) => if value { 4 } else { 0 },
        Gate::And(a, b) => 4 * (literal_key(a) + LITERALS * literal_key(b)) + 1,
        Gate::Xor(a, b) => 4 * (literal_key(a) + LITERALS * literal_key(b)) + 2,
        Gate::Choose(test, a, b) => {
            let chosen = literal_key(a) + LITERALS * literal_key(b);
            4 * (literal_key(test) + LITERALS * chosen) + 3
        }
    }
}
