ghost use Rattle.std.specs.Prelude.{◌≡◌, ℕ, Bool, ◌+◌, ◌*◌, ◌^◌, ◌≤◌, ◌<◌, ◌/◌, ◌%◌, ◌-◌, cond, leb, length, OnOk, IfOk, [], ◌++◌, ◌∷◌};
ghost use Rattle.sy_gates.specs.Circuits.{variables, FollowsPlan, GrownCircuit, bit_value, bit_bound, word_bound, word_number};
ghost use Rattle.sy_gates.specs.Arithmetic.{filled_shift_down};

use crate::circuit::Circuit;
use crate::gate::Bit;
use crate::wires::{joined, moved_down, moved_up};
use std::alloc::Global;
use sy_seq::{Seq, Want};

impl Circuit {
    /// `a` moved up by the number of `by`, modulo 2 to the power of its width.
    #[tactic(auto, using(crate::proofs::Words::word_steps))]
    pub fn shift_up(&mut self, alloc: Global, a: &[Bit], by: &[Bit]) -> Result<Seq<Bit>, Want>
        requires small { length a.now < 2 ^ 32 }
        requires left { word_bound a.now ≤ variables self.old }
        requires right { word_bound by.now ≤ variables self.old }
        requires room { variables self.old + length a.now * length by.now < 2 ^ 31 }
        ensures grown { GrownCircuit self.old self.new }
        ensures cost { OnOk result (variables self.new ≤ variables self.old + length a.now * length by.now) }
        ensures width { IfOk result (λ r. length r ≡ length a.now) }
        ensures inside { IfOk result (λ r. word_bound r ≤ variables self.new) }
        ensures value { IfOk result (λ r. (v : ℕ → Bool) → FollowsPlan v self.new →
            word_number v r ≡ word_number v a.now * 2 ^ word_number v by.now % 2 ^ length a.now) }
    {
        let mut word = joined(alloc, a, &[])?;
        let mut step = usize::min(1, a.len());
        for i in 0..by.len() {
            let test = by[i];
            let moved = moved_up(alloc, word.as_slice(), step)?;
            word = self.choose_word(alloc, test, moved.as_slice(), word.as_slice())?;
            step = usize::min(step * 2, a.len());
        }
        Ok(word)
    }

    /// `a` moved down by the number of `by`, with zeros above.
    pub fn shift_down(&mut self, alloc: Global, a: &[Bit], by: &[Bit]) -> Result<Seq<Bit>, Want>
        requires small { length a.now < 2 ^ 32 }
        requires left { word_bound a.now ≤ variables self.old }
        requires right { word_bound by.now ≤ variables self.old }
        requires room { variables self.old + length a.now * length by.now < 2 ^ 31 }
        ensures grown { GrownCircuit self.old self.new }
        ensures cost { OnOk result (variables self.new ≤ variables self.old + length a.now * length by.now) }
        ensures width { IfOk result (λ r. length r ≡ length a.now) }
        ensures inside { IfOk result (λ r. word_bound r ≤ variables self.new) }
        ensures value { IfOk result (λ r. (v : ℕ → Bool) →
            FollowsPlan v self.new → word_number v r ≡ word_number v a.now / 2 ^ word_number v by.now) }
    {
        let word = self.filled_shift_down(alloc, a, by, Bit::Fixed(false))?;
        Ok(word)
    }

    /// `a` moved down by the number of `by`, with copies of `fill` above. Where the bits of `by` are
    /// constants, each bit of the result is one of `a` or `fill`.
    #[tactic(auto, using(crate::proofs::Words::word_steps))]
    pub(crate) fn filled_shift_down(
        &mut self,
        alloc: Global,
        a: &[Bit],
        by: &[Bit],
        fill: Bit,
    ) -> Result<Seq<Bit>, Want>
        requires small { length a.now < 2 ^ 32 }
        requires left { word_bound a.now ≤ variables self.old }
        requires right { word_bound by.now ≤ variables self.old }
        requires fill { bit_bound fill ≤ variables self.old }
        requires room { variables self.old + length a.now * length by.now < 2 ^ 31 }
        ensures grown { GrownCircuit self.old self.new }
        ensures cost { OnOk result (variables self.new ≤ variables self.old + length a.now * length by.now) }
        ensures width { IfOk result (λ r. length r ≡ length a.now) }
        ensures inside { IfOk result (λ r. word_bound r ≤ variables self.new) }
        ensures value { IfOk result (λ r. (v : ℕ → Bool) → FollowsPlan v self.new → word_number v r ≡
            filled_shift_down (length a.now) (bit_value v fill) (word_number v a.now) (word_number v by.now)) }
    {
        let mut word = joined(alloc, a, &[])?;
        let mut step = usize::min(1, a.len());
        for i in 0..by.len() {
            let test = by[i];
            let moved = moved_down(alloc, word.as_slice(), step, fill)?;
            word = self.choose_word(alloc, test, moved.as_slice(), word.as_slice())?;
            step = usize::min(step * 2, a.len());
        }
        Ok(word)
    }
}
