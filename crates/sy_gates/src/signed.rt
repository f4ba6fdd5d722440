ghost use Rattle.std.specs.Prelude.{◌≡◌, ℕ, Bool, true, ◌+◌, ◌*◌, ◌^◌, ◌≤◌, ◌<◌, ◌-◌, ◌%◌, ◌↔◌, ◌<ℤ◌, cond, length, OnOk, IfOk, [], ◌++◌, ◌∷◌};
ghost use Rattle.sy_gates.specs.Circuits.{variables, FollowsPlan, GrownCircuit, bit_value, bit_bound, word_bound, word_number, xor};
ghost use Rattle.sy_gates.specs.Arithmetic.{
  has_top_bit,
  minus_vector,
  magnitude,
  quotient_of,
  remainder_of,
  signed_number,
  signed_quotient,
  signed_remainder,
  signed_modulo,
  by_signs,
  moved_to_sign,
  signed_shift_down,
};

use crate::circuit::Circuit;
use crate::gate::Bit;
use crate::quotient::Division;
use crate::word::zeros;
use std::alloc::Global;
use sy_seq::{Seq, Want};

/// The top bit of a word.
#[tactic(auto, using(crate::proofs::Words::word_steps))]
pub fn top(a: &[Bit]) -> Bit
    requires { 0 < length a.now }
    ensures bound { bit_bound result ≤ word_bound a.now }
    ensures value { (v : ℕ → Bool) → bit_value v result ≡ has_top_bit (length a.now) (word_number v a.now) }
{
    a[a.len() - 1]
}

impl Circuit {
    /// Minus `a` where `test` is true, and `a` elsewhere.
    fn negate_where(&mut self, alloc: Global, test: Bit, a: &[Bit]) -> Result<Seq<Bit>, Want>
        requires test { bit_bound test ≤ variables self.old }
        requires word { word_bound a.now ≤ variables self.old }
        requires room { variables self.old + 4 * length a.now < 2 ^ 31 }
        ensures grown { GrownCircuit self.old self.new }
        ensures cost { OnOk result (variables self.new ≤ variables self.old + 4 * length a.now) }
        ensures width { IfOk result (λ r. length r ≡ length a.now) }
        ensures inside { IfOk result (λ r. word_bound r ≤ variables self.new) }
        ensures value { IfOk result (λ r. (v : ℕ → Bool) → FollowsPlan v self.new → word_number v r ≡
            cond (bit_value v test) (minus_vector (length a.now) (word_number v a.now)) (word_number v a.now)) }
    {
        let turned = self.neg(alloc, a)?;
        let word = self.choose_word(alloc, test, turned.as_slice(), a)?;
        Ok(word)
    }

    /// Whether the number of `a` in two's complement is less than that of `b`.
    pub fn signed_less(&mut self, alloc: Global, a: &[Bit], b: &[Bit]) -> Result<Bit, Want>
        requires same { length b.now ≡ length a.now }
        requires wide { 0 < length a.now }
        requires left { word_bound a.now ≤ variables self.old }
        requires right { word_bound b.now ≤ variables self.old }
        requires room { variables self.old + 3 * length a.now + 2 < 2 ^ 31 }
        ensures grown { GrownCircuit self.old self.new }
        ensures cost { OnOk result (variables self.new ≤ variables self.old + 3 * length a.now + 2) }
        ensures inside { IfOk result (λ r. bit_bound r ≤ variables self.new) }
        ensures value { IfOk result (λ r. (v : ℕ → Bool) →
            FollowsPlan v self.new → (bit_value v r ≡ true ↔ (signed_number (length a.now)
            (word_number v a.now) <ℤ signed_number (length a.now) (word_number v b.now)))) }
    {
        let below = self.less(alloc, a, b)?;
        let differ = self.xor(top(a), top(b))?;
        let answer = self.choose(differ, top(a), below)?;
        Ok(answer)
    }

    /// The quotient and the remainder of the magnitudes of two words in two's complement.
    fn divide_magnitudes(&mut self, alloc: Global, a: &[Bit], b: &[Bit]) -> Result<Division, Want>
        requires same { length b.now ≡ length a.now }
        requires wide { 0 < length a.now }
        requires left { word_bound a.now ≤ variables self.old }
        requires right { word_bound b.now ≤ variables self.old }
        requires small { length a.now < 2 ^ 32 }
        requires room { variables self.old + 4 * (length a.now * (length a.now + 1)) + 8 * length a.now < 2 ^ 31 }
        ensures grown { GrownCircuit self.old self.new }
        ensures cost { OnOk result (variables self.new ≤
            variables self.old + 4 * (length a.now * (length a.now + 1)) + 8 * length a.now) }
        ensures quotient_width { IfOk result (λ r. length r.quotient ≡ length a.now) }
        ensures remainder_width { IfOk result (λ r. length r.remainder ≡ length a.now) }
        ensures quotient_inside { IfOk result (λ r. word_bound r.quotient ≤ variables self.new) }
        ensures remainder_inside { IfOk result (λ r. word_bound r.remainder ≤ variables self.new) }
        ensures quotient { IfOk result (λ r. (v : ℕ → Bool) →
            FollowsPlan v self.new → word_number v r.quotient ≡ quotient_of (length a.now)
            (magnitude (length a.now) (word_number v a.now)) (magnitude (length a.now) (word_number v b.now))) }
        ensures remainder { IfOk result (λ r. (v : ℕ → Bool) → FollowsPlan v self.new →
            word_number v r.remainder ≡ remainder_of (magnitude (length a.now) (word_number v a.now))
            (magnitude (length a.now) (word_number v b.now))) }
    {
        let left = self.negate_where(alloc, top(a), a)?;
        let right = self.negate_where(alloc, top(b), b)?;
        let division = self.divide(alloc, left.as_slice(), right.as_slice())?;
        Ok(division)
    }

    /// The quotient of two words in two's complement, rounded towards 0.
    pub fn signed_quotient(&mut self, alloc: Global, a: &[Bit], b: &[Bit]) -> Result<Seq<Bit>, Want>
        requires same { length b.now ≡ length a.now }
        requires wide { 0 < length a.now }
        requires left { word_bound a.now ≤ variables self.old }
        requires right { word_bound b.now ≤ variables self.old }
        requires small { length a.now < 2 ^ 32 }
        requires room { variables self.old + 4 * (length a.now * (length a.now + 1)) + 12 * length a.now + 1 < 2 ^ 31 }
        ensures grown { GrownCircuit self.old self.new }
        ensures cost { OnOk result (variables self.new ≤
            variables self.old + 4 * (length a.now * (length a.now + 1)) + 12 * length a.now + 1) }
        ensures width { IfOk result (λ r. length r ≡ length a.now) }
        ensures inside { IfOk result (λ r. word_bound r ≤ variables self.new) }
        ensures value { IfOk result (λ r. (v : ℕ → Bool) → FollowsPlan v self.new →
            word_number v r ≡ signed_quotient (length a.now) (word_number v a.now) (word_number v b.now)) }
    {
        let quotient = self.divide_magnitudes(alloc, a, b)?.quotient;
        let differ = self.xor(top(a), top(b))?;
        let word = self.negate_where(alloc, differ, quotient.as_slice())?;
        Ok(word)
    }

    /// The remainder of two words in two's complement, with the sign of `a`.
    pub fn signed_remainder(
        &mut self,
        alloc: Global,
        a: &[Bit],
        b: &[Bit],
    ) -> Result<Seq<Bit>, Want>
        requires same { length b.now ≡ length a.now }
        requires wide { 0 < length a.now }
        requires left { word_bound a.now ≤ variables self.old }
        requires right { word_bound b.now ≤ variables self.old }
        requires small { length a.now < 2 ^ 32 }
        requires room { variables self.old + 4 * (length a.now * (length a.now + 1)) + 12 * length a.now < 2 ^ 31 }
        ensures grown { GrownCircuit self.old self.new }
        ensures cost { OnOk result (variables self.new ≤
            variables self.old + 4 * (length a.now * (length a.now + 1)) + 12 * length a.now) }
        ensures width { IfOk result (λ r. length r ≡ length a.now) }
        ensures inside { IfOk result (λ r. word_bound r ≤ variables self.new) }
        ensures value { IfOk result (λ r. (v : ℕ → Bool) → FollowsPlan v self.new →
            word_number v r ≡ signed_remainder (length a.now) (word_number v a.now) (word_number v b.now)) }
    {
        let rest = self.divide_magnitudes(alloc, a, b)?.remainder;
        let word = self.negate_where(alloc, top(a), rest.as_slice())?;
        Ok(word)
    }

    /// The remainder of two words in two's complement, with the sign of `b`.
    pub fn signed_modulo(&mut self, alloc: Global, a: &[Bit], b: &[Bit]) -> Result<Seq<Bit>, Want>
        requires same { length b.now ≡ length a.now }
        requires wide { 0 < length a.now }
        requires left { word_bound a.now ≤ variables self.old }
        requires right { word_bound b.now ≤ variables self.old }
        requires small { length a.now < 2 ^ 32 }
        requires room { variables self.old + 4 * (length a.now * (length a.now + 1)) + 19 * length a.now + 1 < 2 ^ 31 }
        ensures grown { GrownCircuit self.old self.new }
        ensures cost { OnOk result (variables self.new ≤
            variables self.old + 4 * (length a.now * (length a.now + 1)) + 19 * length a.now + 1) }
        ensures width { IfOk result (λ r. length r ≡ length a.now) }
        ensures inside { IfOk result (λ r. word_bound r ≤ variables self.new) }
        ensures value { IfOk result (λ r. (v : ℕ → Bool) → FollowsPlan v self.new →
            word_number v r ≡ signed_modulo (length a.now) (word_number v a.now) (word_number v b.now)) }
    {
        let rest = self.divide_magnitudes(alloc, a, b)?.remainder;
        let word = self.signed_choice(alloc, top(a), top(b), rest.as_slice(), b)?;
        Ok(word)
    }

    /// The remainder `rest` of the magnitudes, moved to the sign of `b`.
    fn signed_choice(
        &mut self,
        alloc: Global,
        left: Bit,
        right: Bit,
        rest: &[Bit],
        b: &[Bit],
    ) -> Result<Seq<Bit>, Want>
        requires same { length b.now ≡ length rest.now }
        requires left { bit_bound left ≤ variables self.old }
        requires right { bit_bound right ≤ variables self.old }
        requires rest { word_bound rest.now ≤ variables self.old }
        requires word { word_bound b.now ≤ variables self.old }
        requires room { variables self.old + 11 * length rest.now + 1 < 2 ^ 31 }
        ensures grown { GrownCircuit self.old self.new }
        ensures cost { OnOk result (variables self.new ≤ variables self.old + 11 * length rest.now + 1) }
        ensures width { IfOk result (λ r. length r ≡ length rest.now) }
        ensures inside { IfOk result (λ r. word_bound r ≤ variables self.new) }
        ensures value { IfOk result (λ r. (v : ℕ → Bool) → FollowsPlan v self.new → word_number v r ≡ moved_to_sign
            (length rest.now) (bit_value v left) (bit_value v right) (word_number v rest.now) (word_number v b.now)) }
    {
        let none = zeros(alloc, rest.len())?;
        let moved = self.choice_by_signs(alloc, left, right, rest, b)?;
        let nothing = self.equal(rest, none.as_slice())?;
        let word = self.choose_word(alloc, nothing, none.as_slice(), moved.as_slice())?;
        Ok(word)
    }

    /// The remainder `rest` of the magnitudes by the two signs, where it isn't 0.
    fn choice_by_signs(
        &mut self,
        alloc: Global,
        left: Bit,
        right: Bit,
        rest: &[Bit],
        b: &[Bit],
    ) -> Result<Seq<Bit>, Want>
        requires same { length b.now ≡ length rest.now }
        requires left { bit_bound left ≤ variables self.old }
        requires right { bit_bound right ≤ variables self.old }
        requires rest { word_bound rest.now ≤ variables self.old }
        requires word { word_bound b.now ≤ variables self.old }
        requires room { variables self.old + 8 * length rest.now + 1 < 2 ^ 31 }
        ensures grown { GrownCircuit self.old self.new }
        ensures cost { OnOk result (variables self.new ≤ variables self.old + 8 * length rest.now + 1) }
        ensures width { IfOk result (λ r. length r ≡ length rest.now) }
        ensures inside { IfOk result (λ r. word_bound r ≤ variables self.new) }
        ensures value { IfOk result (λ r. (v : ℕ → Bool) → FollowsPlan v self.new → word_number v r ≡ by_signs
            (length rest.now) (bit_value v left) (bit_value v right) (word_number v rest.now) (word_number v b.now)) }
    {
        let signed = self.negate_where(alloc, left, rest)?;
        let other = self.add(alloc, signed.as_slice(), b)?;
        let differ = self.xor(left, right)?;
        let word = self.choose_word(alloc, differ, other.as_slice(), signed.as_slice())?;
        Ok(word)
    }

    /// `a` moved down by the number of `by`, with copies of its top bit above.
    pub fn signed_shift_down(
        &mut self,
        alloc: Global,
        a: &[Bit],
        by: &[Bit],
    ) -> Result<Seq<Bit>, Want>
        requires wide { 0 < length a.now }
        requires small { length a.now < 2 ^ 32 }
        requires left { word_bound a.now ≤ variables self.old }
        requires right { word_bound by.now ≤ variables self.old }
        requires room { variables self.old + length a.now * length by.now + 2 * length a.now < 2 ^ 31 }
        ensures grown { GrownCircuit self.old self.new }
        ensures cost { OnOk result (variables self.new ≤
            variables self.old + length a.now * length by.now + 2 * length a.now) }
        ensures width { IfOk result (λ r. length r ≡ length a.now) }
        ensures inside { IfOk result (λ r. word_bound r ≤ variables self.new) }
        ensures value { IfOk result (λ r. (v : ℕ → Bool) → FollowsPlan v self.new →
            word_number v r ≡ signed_shift_down (length a.now) (word_number v a.now) (word_number v by.now)) }
    {
        let word = self.filled_shift_down(alloc, a, by, top(a))?;
        Ok(word)
    }
}
