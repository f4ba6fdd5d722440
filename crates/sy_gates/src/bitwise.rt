ghost use Rattle.std.specs.Prelude.{◌-◌, ◌^◌, ◌<◌, ◌≡◌, ℕ, Bool, ◌+◌, ◌*◌, ◌≤◌, length, map, OnOk, IfOk, [], ◌++◌, ◌∷◌};
ghost use Rattle.sy_gates.specs.Circuits.{variables, FollowsPlan, GrownCircuit, bit_value, bit_bound, word_bound, word_number};
ghost use Rattle.sy_gates.specs.Bitwise.{joint_value, joint_number, all_joined};

use crate::circuit::Circuit;
use crate::gate::Bit;
use crate::word::inverted;
use std::alloc::Global;
use sy_seq::{Seq, Want};

/// What joins two bits, or two words bit by bit.
#[derive(Clone, Copy)]
pub enum Joint {
    And,
    Or,
    Xor,
}

impl Circuit {
    /// The two bits, joined.
    pub(crate) fn join_bits(&mut self, joint: Joint, a: Bit, b: Bit) -> Result<Bit, Want>
        requires left { bit_bound a ≤ variables self.old }
        requires right { bit_bound b ≤ variables self.old }
        requires room { variables self.old + 1 < 2 ^ 31 }
        ensures grown { GrownCircuit self.old self.new }
        ensures cost { OnOk result (variables self.new ≤ variables self.old + 1) }
        ensures inside { IfOk result (λ r. bit_bound r ≤ variables self.new) }
        ensures value { IfOk result (λ r. (v : ℕ → Bool) →
            FollowsPlan v self.new → bit_value v r ≡ joint_value joint (bit_value v a) (bit_value v b)) }
    {
        match joint {
            Joint::And => self.and(a, b),
            Joint::Or => self.or(a, b),
            Joint::Xor => self.xor(a, b),
        }
    }

    /// All bits of a list, joined. The joint of no bits is true for `And`, and else false.
    #[tactic(auto, using(crate::proofs::Words::word_steps))]
    pub fn join_all(&mut self, joint: Joint, bits: &[Bit]) -> Result<Bit, Want>
        requires inside { word_bound bits.now ≤ variables self.old }
        requires room { variables self.old + length bits.now < 2 ^ 31 }
        ensures grown { GrownCircuit self.old self.new }
        ensures cost { OnOk result (variables self.new ≤ variables self.old + length bits.now) }
        ensures inside { IfOk result (λ r. bit_bound r ≤ variables self.new) }
        ensures value { IfOk result (λ r. (v : ℕ → Bool) →
            FollowsPlan v self.new → bit_value v r ≡ all_joined joint (map (λ b. bit_value v b) bits.now)) }
    {
        let mut all = Bit::Fixed(match joint {
            Joint::And => true,
            Joint::Or | Joint::Xor => false,
        });
        for i in 0..bits.len() {
            let bit = bits[i];
            all = self.join_bits(joint, all, bit)?;
        }
        Ok(all)
    }

    /// Two words of one width, joined bit by bit.
    #[tactic(auto, using(crate::proofs::Words::word_steps))]
    pub fn bitwise(
        &mut self,
        alloc: Global,
        joint: Joint,
        a: &[Bit],
        b: &[Bit],
    ) -> Result<Seq<Bit>, Want>
        requires same { length b.now ≡ length a.now }
        requires left { word_bound a.now ≤ variables self.old }
        requires right { word_bound b.now ≤ variables self.old }
        requires room { variables self.old + length a.now < 2 ^ 31 }
        ensures grown { GrownCircuit self.old self.new }
        ensures cost { OnOk result (variables self.new ≤ variables self.old + length a.now) }
        ensures width { IfOk result (λ r. length r ≡ length a.now) }
        ensures inside { IfOk result (λ r. word_bound r ≤ variables self.new) }
        ensures value { IfOk result (λ r. (v : ℕ → Bool) →
            FollowsPlan v self.new → word_number v r ≡ joint_number joint (word_number v a.now) (word_number v b.now)) }
    {
        let mut word = Seq::new(alloc);
        for i in 0..a.len() {
            let x = a[i];
            let y = b[i];
            let joined = self.join_bits(joint, x, y)?;
            word.push(joined)?;
        }
        Ok(word)
    }

    /// Two words of one width, joined bit by bit, each bit turned.
    #[tactic(auto, using(crate::proofs::Words::word_steps))]
    pub fn bitwise_inverted(
        &mut self,
        alloc: Global,
        joint: Joint,
        a: &[Bit],
        b: &[Bit],
    ) -> Result<Seq<Bit>, Want>
        requires same { length b.now ≡ length a.now }
        requires left { word_bound a.now ≤ variables self.old }
        requires right { word_bound b.now ≤ variables self.old }
        requires room { variables self.old + length a.now < 2 ^ 31 }
        ensures grown { GrownCircuit self.old self.new }
        ensures cost { OnOk result (variables self.new ≤ variables self.old + length a.now) }
        ensures width { IfOk result (λ r. length r ≡ length a.now) }
        ensures inside { IfOk result (λ r. word_bound r ≤ variables self.new) }
        ensures value { IfOk result (λ r. (v : ℕ → Bool) → FollowsPlan v self.new →
            word_number v r ≡ 2 ^ length a.now - 1 - joint_number joint (word_number v a.now) (word_number v b.now)) }
    {
        let joined = self.bitwise(alloc, joint, a, b)?;
        let word = inverted(alloc, joined.as_slice())?;
        Ok(word)
    }
}
