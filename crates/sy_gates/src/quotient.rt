ghost use Rattle.std.specs.Prelude.{◌≡◌, ℕ, Bool, ◌+◌, ◌*◌, ◌^◌, ◌≤◌, ◌<◌, ◌%◌, ◌-◌, cond, leb, max, length, OnOk, IfOk, [], ◌++◌, ◌∷◌};
ghost use Rattle.sy_gates.specs.Circuits.{variables, FollowsPlan, GrownCircuit, bit_value, bit_number, bit_bound, word_bound, word_number};
ghost use Rattle.sy_gates.specs.Arithmetic.{quotient_of, remainder_of};

use crate::circuit::Circuit;
use crate::gate::Bit;
use crate::wires::{joined, part};
use crate::word::zeros;
use std::alloc::Global;
use sy_seq::{Seq, Want};

/// A quotient and a remainder.
#[derive(Drop)]
pub struct Division {
    pub quotient: Seq<Bit>,
    pub remainder: Seq<Bit>,
}

/// One digit of a quotient, and what is left.
#[derive(Drop)]
struct Digit {
    digit: Bit,
    rest: Seq<Bit>,
}

impl Circuit {
    /// Brings down the bit `next` to what is left, and takes `b` away where it is not larger.
    #[tactic(auto, using(crate::proofs::Places::wire_steps))]
    fn divide_digit(
        &mut self,
        alloc: Global,
        rest: &[Bit],
        next: Bit,
        b: &[Bit],
    ) -> Result<Digit, Want>
        requires same { length rest.now ≡ length b.now }
        requires small { length b.now < 2 ^ 32 }
        requires left { word_bound rest.now ≤ variables self.old }
        requires right { word_bound b.now ≤ variables self.old }
        requires next { bit_bound next ≤ variables self.old }
        requires room { variables self.old + 4 * (length b.now + 1) < 2 ^ 31 }
        ensures grown { GrownCircuit self.old self.new }
        ensures cost { OnOk result (variables self.new ≤ variables self.old + 4 * (length b.now + 1)) }
        ensures width { IfOk result (λ r. length r.rest ≡ length b.now) }
        ensures inside { IfOk result (λ r. word_bound r.rest ≤ variables self.new) }
        ensures digit_inside { IfOk result (λ r. bit_bound r.digit ≤ variables self.new) }
        ensures digit { IfOk result (λ r. (v : ℕ → Bool) → FollowsPlan v self.new →
            bit_value v r.digit ≡ leb (word_number v b.now) (word_number v rest.now * 2 + bit_number v next)) }
        ensures rest { IfOk result (λ r. (v : ℕ → Bool) → FollowsPlan v self.new → word_number v r.rest ≡ (word_number v
            rest.now * 2 + bit_number v next - cond (bit_value v r.digit) (word_number v b.now) 0) % 2 ^ length b.now) }
    {
        let brought = joined(alloc, &[next], rest)?;
        let taken = joined(alloc, b, &[Bit::Fixed(false)])?;
        let total = self.subtract(alloc, brought.as_slice(), taken.as_slice())?;
        let digit = total.carry;
        let left = self.choose_word(alloc, digit, total.word.as_slice(), brought.as_slice())?;
        let rest = part(alloc, left.as_slice(), 0, b.len())?;
        Ok(Digit { digit, rest })
    }

    /// The quotient of two words of one width, rounded down, and the remainder. Where `b` is 0 the quotient is all
    /// ones and the remainder is `a`.
    #[tactic(auto, using(crate::proofs::Words::word_steps))]
    pub fn divide(&mut self, alloc: Global, a: &[Bit], b: &[Bit]) -> Result<Division, Want>
        requires same { length b.now ≡ length a.now }
        requires small { length a.now < 2 ^ 32 }
        requires left { word_bound a.now ≤ variables self.old }
        requires right { word_bound b.now ≤ variables self.old }
        requires room { variables self.old + 4 * (length a.now * (length a.now + 1)) < 2 ^ 31 }
        ensures grown { GrownCircuit self.old self.new }
        ensures cost { OnOk result (variables self.new ≤ variables self.old + 4 * (length a.now * (length a.now + 1))) }
        ensures quotient_width { IfOk result (λ r. length r.quotient ≡ length a.now) }
        ensures remainder_width { IfOk result (λ r. length r.remainder ≡ length a.now) }
        ensures quotient_inside { IfOk result (λ r. word_bound r.quotient ≤ variables self.new) }
        ensures remainder_inside { IfOk result (λ r. word_bound r.remainder ≤ variables self.new) }
        ensures quotient { IfOk result (λ r. (v : ℕ → Bool) → FollowsPlan v self.new →
            word_number v r.quotient ≡ quotient_of (length a.now) (word_number v a.now) (word_number v b.now)) }
        ensures remainder { IfOk result (λ r. (v : ℕ → Bool) → FollowsPlan v self.new →
            word_number v r.remainder ≡ remainder_of (word_number v a.now) (word_number v b.now)) }
    {
        let width = a.len();
        let mut quotient = zeros(alloc, 0)?;
        let mut rest = zeros(alloc, width)?;
        for i in 0..width {
            let next = a[width - 1 - i];
            let step = self.divide_digit(alloc, rest.as_slice(), next, b)?;
            quotient = joined(alloc, &[step.digit], quotient.as_slice())?;
            rest = step.rest;
        }
        Ok(Division {
            quotient,
            remainder: rest,
        })
    }
}
