ghost use Rattle.std.specs.Prelude.{◌≡◌, ℕ, Bool, true, ◌+◌, ◌*◌, ◌^◌, ◌≤◌, ◌<◌, ◌-◌, ◌↔◌, cond, eqb, length, OnOk, IfOk, [], ◌++◌, ◌∷◌};
ghost use Rattle.sy_gates.specs.Circuits.{variables, FollowsPlan, GrownCircuit, bit_value, word_bound, bit_bound, word_number};
ghost use Rattle.sy_gates.specs.Arithmetic.{signed_number};
ghost use Rattle.sy_gates.specs.Orders.{order_value, Stands};

use crate::circuit::Circuit;
use crate::gate::Bit;
use crate::wires::joined;
use std::alloc::Global;
use sy_seq::{Seq, Want};

/// How the first of two numbers stands to the second.
#[derive(Clone, Copy)]
pub enum Order {
    Less,
    AtMost,
    Greater,
    AtLeast,
}

impl Circuit {
    /// Whether the numbers of two words of one width stand in the order.
    pub fn compare(
        &mut self,
        alloc: Global,
        order: Order,
        a: &[Bit],
        b: &[Bit],
    ) -> Result<Bit, Want>
        requires same { length b.now ≡ length a.now }
        requires left { word_bound a.now ≤ variables self.old }
        requires right { word_bound b.now ≤ variables self.old }
        requires room { variables self.old + 3 * length a.now < 2 ^ 31 }
        ensures grown { GrownCircuit self.old self.new }
        ensures cost { OnOk result (variables self.new ≤ variables self.old + 3 * length a.now) }
        ensures inside { IfOk result (λ r. bit_bound r ≤ variables self.new) }
        ensures value { IfOk result (λ r. (v : ℕ → Bool) →
            FollowsPlan v self.new → bit_value v r ≡ order_value order (word_number v a.now) (word_number v b.now)) }
    {
        match order {
            Order::Less => self.less(alloc, a, b),
            Order::AtMost => Ok(self.less(alloc, b, a)?.negated()),
            Order::Greater => self.less(alloc, b, a),
            Order::AtLeast => Ok(self.less(alloc, a, b)?.negated()),
        }
    }

    /// Whether the numbers of two words of one width, in two's complement, stand in the order.
    pub fn signed_compare(
        &mut self,
        alloc: Global,
        order: Order,
        a: &[Bit],
        b: &[Bit],
    ) -> Result<Bit, Want>
        requires same { length b.now ≡ length a.now }
        requires wide { 0 < length a.now }
        requires left { word_bound a.now ≤ variables self.old }
        requires right { word_bound b.now ≤ variables self.old }
        requires room { variables self.old + 3 * length a.now + 2 < 2 ^ 31 }
        ensures grown { GrownCircuit self.old self.new }
        ensures cost { OnOk result (variables self.new ≤ variables self.old + 3 * length a.now + 2) }
        ensures inside { IfOk result (λ r. bit_bound r ≤ variables self.new) }
        ensures value { IfOk result (λ r. (v : ℕ → Bool) → FollowsPlan v self.new →
            (bit_value v r ≡ true ↔ Stands order (signed_number (length a.now) (word_number v a.now))
            (signed_number (length a.now) (word_number v b.now)))) }
    {
        match order {
            Order::Less => self.signed_less(alloc, a, b),
            Order::AtMost => Ok(self.signed_less(alloc, b, a)?.negated()),
            Order::Greater => self.signed_less(alloc, b, a),
            Order::AtLeast => Ok(self.signed_less(alloc, a, b)?.negated()),
        }
    }

    /// A word of one bit: 1 where two words of one width have the same number, and 0 elsewhere.
    pub fn comp(&mut self, alloc: Global, a: &[Bit], b: &[Bit]) -> Result<Seq<Bit>, Want>
        requires same { length b.now ≡ length a.now }
        requires left { word_bound a.now ≤ variables self.old }
        requires right { word_bound b.now ≤ variables self.old }
        requires room { variables self.old + 2 * length a.now < 2 ^ 31 }
        ensures grown { GrownCircuit self.old self.new }
        ensures cost { OnOk result (variables self.new ≤ variables self.old + 2 * length a.now) }
        ensures width { IfOk result (λ r. length r ≡ 1) }
        ensures inside { IfOk result (λ r. word_bound r ≤ variables self.new) }
        ensures value { IfOk result (λ r. (v : ℕ → Bool) →
            FollowsPlan v self.new → word_number v r ≡ cond (eqb (word_number v a.now) (word_number v b.now)) 1 0) }
    {
        let same = self.equal(a, b)?;
        let word = joined(alloc, &[same], &[])?;
        Ok(word)
    }
}
