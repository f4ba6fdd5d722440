ghost use Rattle.std.specs.Prelude.{◌<◌, ◌^◌, ◌≡◌, ℕ, Bool, true, ◌↔◌, ◌+◌, ◌≤◌, ◌&&◌, ◌||◌, cond, ◌*◌, length, slice_get, Some, Ok, OnOk, IfOk, IfSome, [], ◌++◌, ◌∷◌};
ghost use Rattle.sy_gates.specs.Circuits.{Plan, variables, FollowsPlan, bit_value, bit_bound, gate_bound, gate_value, bit_number, xor, GrownCircuit, lit_bound, lit_value, clauses_bound};
ghost use Rattle.sy_gates.specs.Models.{but_last, ExtendsInOneWay};
ghost use Rattle.sy_clauses.specs.Clauses.{IsModel};

use crate::encode::{add_gate, add_one};
use crate::gate::{Added, Bit, Gate, negated, same_gate, variable};
use crate::table::Table;
use std::alloc::Global;
use std::marker::Model;
use sy_clauses::{Cnf, Lit};
use sy_seq::{Seq, Want};

/// A circuit that is being built. Its first variables are its inputs, and each gate makes the next one.
#[derive(Drop)]
pub struct Circuit {
    inputs: u32,
    gates: Seq<Gate>,
    table: Table,
}

impl Model for Circuit {
    ghost use Rattle.sy_gates.specs.Circuits.{Plan, InOrder};
    ghost use Rattle.sy_gates.specs.Keys.{FindsAll};
    ghost use Rattle.std.specs.Prelude.{◌+◌, ◌<◌, ◌^◌, length};

    ghost Value = { Plan };

    ghost view = { λ c. record { inputs = c.inputs; gates = c.gates } };

    ghost invariant = { λ c. InOrder c.inputs c.gates ×
        (c.inputs + length c.gates < 2 ^ 32) × FindsAll c.table c.gates };
}

impl Circuit {
    /// The circuit of `inputs` variables without a gate.
    pub fn new(alloc: Global, inputs: u32) -> Circuit
        ensures { result ≡ record { inputs = inputs; gates = [] } }
    {
        Circuit {
            inputs,
            gates: Seq::new(alloc),
            table: Table::new(alloc),
        }
    }

    /// The place of a gate that was made; `None` exactly where it wasn't.
    fn place_of(&self, gate: Gate) -> Option<u32>
        ensures place { IfSome result (λ place. slice_get self.now.gates place ≡ Some gate) }
        ensures found { (place : ℕ) → slice_get self.now.gates place ≡ Some gate → result ≡ Some place }
    {
        let place = self.table.place_of(gate)?;
        let made = self.gates.as_slice().get(place as usize)?;
        if same_gate(*made, gate) {
            Some(place)
        } else {
            None
        }
    }

    /// The literal of the variable of a gate that was made; `None` exactly where it wasn't.
    fn found(&self, gate: Gate) -> Option<Lit>
        ensures inside { IfSome result (λ l. lit_bound l ≤ variables self.now) }
        ensures value { IfSome result (λ l. (v : ℕ → Bool) →
            FollowsPlan v self.now → lit_value v l ≡ gate_value v gate) }
        ensures found { (place : ℕ) → slice_get self.now.gates place ≡ Some gate →
            result ≡ Some (record { var = self.now.inputs + place; positive = true }) }
    {
        let place = self.place_of(gate)?;
        Some(variable(self.inputs + place))
    }

    /// Adds a gate and gives the literal of its variable.
    fn push_gate(&mut self, gate: Gate) -> Result<Lit, Want>
        requires new { (place : ℕ) → slice_get self.old.gates place ≡ Some gate → ⊥ }
        requires inside { gate_bound gate ≤ variables self.old }
        requires room { variables self.old + 1 < 2 ^ 31 }
        ensures grown { GrownCircuit self.old self.new }
        ensures cost { OnOk result (variables self.new ≤ variables self.old + 1) }
        ensures inside { IfOk result (λ l. lit_bound l ≤ variables self.new) }
        ensures value { IfOk result (λ l. (v : ℕ → Bool) → FollowsPlan v self.new → lit_value v l ≡ gate_value v gate) }
    {
        let made = self.gates.len();
        self.table.note(gate, made as u32)?;
        self.gates.push(gate)?;
        Ok(variable(self.inputs + made as u32))
    }

    /// The literal of a gate's variable. A gate that was made before is not added again.
    fn make(&mut self, gate: Gate) -> Result<Lit, Want>
        requires inside { gate_bound gate ≤ variables self.old }
        requires room { variables self.old + 1 < 2 ^ 31 }
        ensures grown { GrownCircuit self.old self.new }
        ensures cost { OnOk result (variables self.new ≤ variables self.old + 1) }
        ensures inside { IfOk result (λ l. lit_bound l ≤ variables self.new) }
        ensures value { IfOk result (λ l. (v : ℕ → Bool) → FollowsPlan v self.new → lit_value v l ≡ gate_value v gate) }
        ensures again { (place : ℕ) → slice_get self.old.gates place ≡ Some gate →
            (self.new ≡ self.old) × (result ≡ Ok (record { var = self.old.inputs + place; positive = true })) }
    {
        if let Some(literal) = self.found(gate) {
            return Ok(literal);
        }
        let literal = self.push_gate(gate)?;
        Ok(literal)
    }

    /// Adds a gate and gives the bit of its variable.
    fn gate(&mut self, gate: Gate) -> Result<Bit, Want>
        requires inside { gate_bound gate ≤ variables self.old }
        requires room { variables self.old + 1 < 2 ^ 31 }
        ensures grown { GrownCircuit self.old self.new }
        ensures cost { OnOk result (variables self.new ≤ variables self.old + 1) }
        ensures inside { IfOk result (λ b. bit_bound b ≤ variables self.new) }
        ensures value { IfOk result (λ b. (v : ℕ → Bool) → FollowsPlan v self.new → bit_value v b ≡ gate_value v gate) }
    {
        let literal = self.make(gate)?;
        Ok(Bit::Of(literal))
    }

    /// The bit that is true where both literals are. The gate's literals stand in the order of their variables.
    fn both(&mut self, x: Lit, y: Lit) -> Result<Bit, Want>
        requires left { lit_bound x ≤ variables self.old }
        requires right { lit_bound y ≤ variables self.old }
        requires room { variables self.old + 1 < 2 ^ 31 }
        ensures grown { GrownCircuit self.old self.new }
        ensures cost { OnOk result (variables self.new ≤ variables self.old + 1) }
        ensures inside { IfOk result (λ r. bit_bound r ≤ variables self.new) }
        ensures value { IfOk result (λ r. (v : ℕ → Bool) →
            FollowsPlan v self.new → bit_value v r ≡ lit_value v x && lit_value v y) }
    {
        if x.var == y.var {
            return Ok(if x.positive == y.positive {
                Bit::Of(x)
            } else {
                Bit::Fixed(false)
            });
        }
        if x.var < y.var {
            self.gate(Gate::And(x, y))
        } else {
            self.gate(Gate::And(y, x))
        }
    }

    /// The bit that is true where exactly one of the literals is. The gate's literals are variables, in their order.
    fn differ(&mut self, x: Lit, y: Lit) -> Result<Bit, Want>
        requires left { lit_bound x ≤ variables self.old }
        requires right { lit_bound y ≤ variables self.old }
        requires room { variables self.old + 1 < 2 ^ 31 }
        ensures grown { GrownCircuit self.old self.new }
        ensures cost { OnOk result (variables self.new ≤ variables self.old + 1) }
        ensures inside { IfOk result (λ r. bit_bound r ≤ variables self.new) }
        ensures value { IfOk result (λ r. (v : ℕ → Bool) →
            FollowsPlan v self.new → bit_value v r ≡ xor (lit_value v x) (lit_value v y)) }
    {
        let turned = x.positive != y.positive;
        if x.var == y.var {
            return Ok(Bit::Fixed(turned));
        }
        let least = x.var.min(y.var);
        let greatest = x.var.max(y.var);
        let bit = self.gate(Gate::Xor(variable(least), variable(greatest)))?;
        Ok(if turned { bit.negated() } else { bit })
    }

    /// The bit of `x` where the test is true, and of `y` elsewhere. The gate's test is a variable.
    fn chosen(&mut self, test: Lit, x: Lit, y: Lit) -> Result<Bit, Want>
        requires test { lit_bound test ≤ variables self.old }
        requires left { lit_bound x ≤ variables self.old }
        requires right { lit_bound y ≤ variables self.old }
        requires room { variables self.old + 1 < 2 ^ 31 }
        ensures grown { GrownCircuit self.old self.new }
        ensures cost { OnOk result (variables self.new ≤ variables self.old + 1) }
        ensures inside { IfOk result (λ r. bit_bound r ≤ variables self.new) }
        ensures value { IfOk result (λ r. (v : ℕ → Bool) →
            FollowsPlan v self.new → bit_value v r ≡ cond (lit_value v test) (lit_value v x) (lit_value v y)) }
    {
        if x.var == y.var {
            return if x.positive == y.positive {
                Ok(Bit::Of(x))
            } else {
                self.differ(test, y)
            };
        }
        if test.positive {
            self.gate(Gate::Choose(test, x, y))
        } else {
            self.gate(Gate::Choose(negated(test), y, x))
        }
    }

    /// A literal with the truth value of the bit.
    pub fn literal(&mut self, bit: Bit) -> Result<Lit, Want>
        requires inside { bit_bound bit ≤ variables self.old }
        requires room { variables self.old + 1 < 2 ^ 31 }
        ensures grown { GrownCircuit self.old self.new }
        ensures cost { OnOk result (variables self.new ≤ variables self.old + 1) }
        ensures inside { IfOk result (λ l. lit_bound l ≤ variables self.new) }
        ensures value { IfOk result (λ l. (v : ℕ → Bool) → FollowsPlan v self.new → lit_value v l ≡ bit_value v bit) }
    {
        match bit {
            Bit::Fixed(b) => self.make(Gate::Constant(b)),
            Bit::Of(l) => Ok(l),
        }
    }

    /// The clauses of the circuit, and last the clause of the output alone.
    pub fn cnf(&self, alloc: Global, output: Lit) -> Result<Cnf, Want>
        requires inside { lit_bound output ≤ variables self.now }
        ensures vars { IfOk result (λ r. r.vars ≡ variables self.now) }
        ensures bound { IfOk result (λ r. clauses_bound r.clauses ≤ r.vars) }
        ensures last { IfOk result (λ r. r.clauses ≡ but_last r.clauses ++ (output ∷ []) ∷ []) }
        ensures models { IfOk result (λ r. (v : ℕ → Bool) → IsModel v (but_last r.clauses) ↔ FollowsPlan v self.now) }
        ensures one_way { IfOk result (λ r. ExtendsInOneWay self.now.inputs r.vars (but_last r.clauses)) }
        ensures count { IfOk result (λ r. length r.clauses ≤ 4 * length self.now.gates + 1) }
    {
        let vars = self.inputs + self.gates.len() as u32;
        let mut clauses = Seq::new(alloc);
        let gates = self.gates.as_slice();
        for i in 0..gates.len() {
            let gate = gates[i];
            add_gate(alloc, &mut clauses, self.inputs + i as u32, gate)?;
        }
        add_one(alloc, &mut clauses, output)?;
        Ok(Cnf { vars, clauses })
    }

    /// The bit that is true where both are.
    pub fn and(&mut self, a: Bit, b: Bit) -> Result<Bit, Want>
        requires left { bit_bound a ≤ variables self.old }
        requires right { bit_bound b ≤ variables self.old }
        requires room { variables self.old + 1 < 2 ^ 31 }
        ensures grown { GrownCircuit self.old self.new }
        ensures cost { OnOk result (variables self.new ≤ variables self.old + 1) }
        ensures inside { IfOk result (λ r. bit_bound r ≤ variables self.new) }
        ensures value { IfOk result (λ r. (v : ℕ → Bool) →
            FollowsPlan v self.new → bit_value v r ≡ bit_value v a && bit_value v b) }
    {
        match a {
            Bit::Fixed(x) => Ok(if x { b } else { Bit::Fixed(false) }),
            Bit::Of(x) => match b {
                Bit::Fixed(y) => Ok(if y { a } else { Bit::Fixed(false) }),
                Bit::Of(y) => self.both(x, y),
            },
        }
    }

    /// The bit that is true where exactly one of them is.
    pub fn xor(&mut self, a: Bit, b: Bit) -> Result<Bit, Want>
        requires left { bit_bound a ≤ variables self.old }
        requires right { bit_bound b ≤ variables self.old }
        requires room { variables self.old + 1 < 2 ^ 31 }
        ensures grown { GrownCircuit self.old self.new }
        ensures cost { OnOk result (variables self.new ≤ variables self.old + 1) }
        ensures inside { IfOk result (λ r. bit_bound r ≤ variables self.new) }
        ensures value { IfOk result (λ r. (v : ℕ → Bool) →
            FollowsPlan v self.new → bit_value v r ≡ xor (bit_value v a) (bit_value v b)) }
    {
        match a {
            Bit::Fixed(x) => Ok(if x { b.negated() } else { b }),
            Bit::Of(x) => match b {
                Bit::Fixed(y) => Ok(if y { a.negated() } else { a }),
                Bit::Of(y) => self.differ(x, y),
            },
        }
    }

    /// The bit that is true where one of them is.
    pub fn or(&mut self, a: Bit, b: Bit) -> Result<Bit, Want>
        requires left { bit_bound a ≤ variables self.old }
        requires right { bit_bound b ≤ variables self.old }
        requires room { variables self.old + 1 < 2 ^ 31 }
        ensures grown { GrownCircuit self.old self.new }
        ensures cost { OnOk result (variables self.new ≤ variables self.old + 1) }
        ensures inside { IfOk result (λ r. bit_bound r ≤ variables self.new) }
        ensures value { IfOk result (λ r. (v : ℕ → Bool) →
            FollowsPlan v self.new → bit_value v r ≡ bit_value v a || bit_value v b) }
    {
        let neither = self.and(a.negated(), b.negated())?;
        Ok(neither.negated())
    }

    /// `a` where `test` is true, and `b` elsewhere.
    pub fn choose(&mut self, test: Bit, a: Bit, b: Bit) -> Result<Bit, Want>
        requires test { bit_bound test ≤ variables self.old }
        requires left { bit_bound a ≤ variables self.old }
        requires right { bit_bound b ≤ variables self.old }
        requires room { variables self.old + 1 < 2 ^ 31 }
        ensures grown { GrownCircuit self.old self.new }
        ensures cost { OnOk result (variables self.new ≤ variables self.old + 1) }
        ensures inside { IfOk result (λ r. bit_bound r ≤ variables self.new) }
        ensures value { IfOk result (λ r. (v : ℕ → Bool) →
            FollowsPlan v self.new → bit_value v r ≡ cond (bit_value v test) (bit_value v a) (bit_value v b)) }
    {
        match test {
            Bit::Fixed(t) => Ok(if t { a } else { b }),
            Bit::Of(t) => match a {
                Bit::Fixed(x) => if x {
                    self.or(test, b)
                } else {
                    self.and(test.negated(), b)
                },
                Bit::Of(x) => match b {
                    Bit::Fixed(y) => if y {
                        self.or(test.negated(), a)
                    } else {
                        self.and(test, a)
                    },
                    Bit::Of(y) => self.chosen(t, x, y),
                },
            },
        }
    }

    /// The sum of three bits.
    pub fn add_bits(&mut self, a: Bit, b: Bit, carry: Bit) -> Result<Added, Want>
        requires left { bit_bound a ≤ variables self.old }
        requires right { bit_bound b ≤ variables self.old }
        requires carry { bit_bound carry ≤ variables self.old }
        requires room { variables self.old + 3 < 2 ^ 31 }
        ensures grown { GrownCircuit self.old self.new }
        ensures cost { OnOk result (variables self.new ≤ variables self.old + 3) }
        ensures digit_inside { IfOk result (λ r. bit_bound r.digit ≤ variables self.new) }
        ensures carry_inside { IfOk result (λ r. bit_bound r.carry ≤ variables self.new) }
        ensures value { IfOk result (λ r. (v : ℕ → Bool) → FollowsPlan v self.new →
            bit_number v r.digit + 2 * bit_number v r.carry ≡ bit_number v a + bit_number v b + bit_number v carry) }
    {
        let differ = self.xor(a, b)?;
        let digit = self.xor(differ, carry)?;
        let next = self.choose(differ, carry, a)?;
        Ok(Added { digit, carry: next })
    }
}
