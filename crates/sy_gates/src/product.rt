ghost use Rattle.std.specs.Prelude.{◌≡◌, ℕ, Bool, ◌+◌, ◌*◌, ◌^◌, ◌≤◌, ◌<◌, ◌%◌, ◌-◌, cond, length, OnOk, IfOk, [], ◌++◌, ◌∷◌};
ghost use Rattle.sy_gates.specs.Circuits.{variables, FollowsPlan, GrownCircuit, bit_value, bit_bound, word_bound, word_number};

use crate::circuit::Circuit;
use crate::gate::Bit;
use crate::masks::sign_of;
use crate::wires::moved_up;
use crate::word::zeros;
use std::alloc::Global;
use sy_seq::{Seq, Want};

impl Circuit {
    /// The sum, where `bit` is true with `a` moved up by `by` places.
    fn add_row(
        &mut self,
        alloc: Global,
        sum: &[Bit],
        a: &[Bit],
        by: usize,
        bit: Bit,
    ) -> Result<Seq<Bit>, Want>
        requires same { length sum.now ≡ length a.now }
        requires place { by ≤ length a.now }
        requires left { word_bound sum.now ≤ variables self.old }
        requires right { word_bound a.now ≤ variables self.old }
        requires bit { bit_bound bit ≤ variables self.old }
        requires room { variables self.old + 4 * length a.now < 2 ^ 31 }
        ensures grown { GrownCircuit self.old self.new }
        ensures cost { OnOk result (variables self.new ≤ variables self.old + 4 * length a.now) }
        ensures width { IfOk result (λ r. length r ≡ length a.now) }
        ensures inside { IfOk result (λ r. word_bound r ≤ variables self.new) }
        ensures value { IfOk result (λ r. (v : ℕ → Bool) → FollowsPlan v self.new → word_number v r ≡
            (word_number v sum.now + cond (bit_value v bit) (word_number v a.now * 2 ^ by) 0) % 2 ^ length a.now) }
    {
        let moved = moved_up(alloc, a, by)?;
        let none = zeros(alloc, a.len())?;
        let row = self.choose_word(alloc, bit, moved.as_slice(), none.as_slice())?;
        let total = self.add(alloc, sum, row.as_slice())?;
        Ok(total)
    }

    /// The product of two words of one width as a sum of rows, modulo 2 to the power of it.
    #[tactic(auto, using(crate::proofs::Words::word_steps))]
    fn mul_rows(&mut self, alloc: Global, a: &[Bit], b: &[Bit]) -> Result<Seq<Bit>, Want>
        requires same { length b.now ≡ length a.now }
        requires left { word_bound a.now ≤ variables self.old }
        requires right { word_bound b.now ≤ variables self.old }
        requires room { variables self.old + 4 * (length a.now * length a.now) < 2 ^ 31 }
        ensures grown { GrownCircuit self.old self.new }
        ensures cost { OnOk result (variables self.new ≤ variables self.old + 4 * (length a.now * length a.now)) }
        ensures width { IfOk result (λ r. length r ≡ length a.now) }
        ensures inside { IfOk result (λ r. word_bound r ≤ variables self.new) }
        ensures value { IfOk result (λ r. (v : ℕ → Bool) →
            FollowsPlan v self.new → word_number v r ≡ word_number v a.now * word_number v b.now % 2 ^ length a.now) }
    {
        let mut sum = zeros(alloc, a.len())?;
        for i in 0..a.len() {
            let bit = b[i];
            sum = self.add_row(alloc, sum.as_slice(), a, i, bit)?;
        }
        Ok(sum)
    }

    /// The product of two words of one width, modulo 2 to the power of it. A product by a sign is a choice.
    pub fn mul(&mut self, alloc: Global, a: &[Bit], b: &[Bit]) -> Result<Seq<Bit>, Want>
        requires same { length b.now ≡ length a.now }
        requires left { word_bound a.now ≤ variables self.old }
        requires right { word_bound b.now ≤ variables self.old }
        requires room { variables self.old + 4 * (length a.now * length a.now) < 2 ^ 31 }
        ensures grown { GrownCircuit self.old self.new }
        ensures cost { OnOk result (variables self.new ≤ variables self.old + 4 * (length a.now * length a.now)) }
        ensures width { IfOk result (λ r. length r ≡ length a.now) }
        ensures inside { IfOk result (λ r. word_bound r ≤ variables self.new) }
        ensures value { IfOk result (λ r. (v : ℕ → Bool) →
            FollowsPlan v self.new → word_number v r ≡ word_number v a.now * word_number v b.now % 2 ^ length a.now) }
    {
        if let Some(sign) = sign_of(b) {
            let word = self.times_sign(alloc, a, sign)?;
            return Ok(word);
        }
        if let Some(sign) = sign_of(a) {
            let word = self.times_sign(alloc, b, sign)?;
            return Ok(word);
        }
        let word = self.mul_rows(alloc, a, b)?;
        Ok(word)
    }
}
