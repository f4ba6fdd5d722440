ghost use Rattle.std.specs.Prelude.{◌<◌, ◌≡◌, ℕ, Bool, ◌+◌, ◌*◌, ◌^◌, ◌≤◌, ◌%◌, ◌-◌, cond, eqb, ltb, length, OnOk, IfOk, [], ◌++◌, ◌∷◌};
ghost use Rattle.sy_gates.specs.Circuits.{variables, FollowsPlan, GrownCircuit, bit_value, bit_bound, bit_number, word_bound, word_number};

use crate::circuit::Circuit;
use crate::gate::{Added, Bit};
use crate::wires::filled;
use std::alloc::Global;
use sy_seq::{Seq, Want};

/// A sum of words: its digits, and what it carries beyond them.
#[derive(Drop)]
pub struct Total {
    pub word: Seq<Bit>,
    pub carry: Bit,
}

impl Circuit {
    /// The sum of two words of one width and a bit.
    #[tactic(auto, using(crate::proofs::Words::word_steps))]
    pub fn add_carry(
        &mut self,
        alloc: Global,
        a: &[Bit],
        b: &[Bit],
        carry: Bit,
    ) -> Result<Total, Want>
        requires same { length b.now ≡ length a.now }
        requires left { word_bound a.now ≤ variables self.old }
        requires right { word_bound b.now ≤ variables self.old }
        requires carry { bit_bound carry ≤ variables self.old }
        requires room { variables self.old + 3 * length a.now < 2 ^ 31 }
        ensures grown { GrownCircuit self.old self.new }
        ensures cost { OnOk result (variables self.new ≤ variables self.old + 3 * length a.now) }
        ensures width { IfOk result (λ r. length r.word ≡ length a.now) }
        ensures inside { IfOk result (λ r. word_bound r.word ≤ variables self.new) }
        ensures carry_inside { IfOk result (λ r. bit_bound r.carry ≤ variables self.new) }
        ensures value { IfOk result (λ r. (v : ℕ → Bool) → FollowsPlan v self.new → word_number v r.word + 2 ^ length
            a.now * bit_number v r.carry ≡ word_number v a.now + word_number v b.now + bit_number v carry) }
    {
        let mut word = Seq::new(alloc);
        let mut over = carry;
        for i in 0..a.len() {
            let x = a[i];
            let y = b[i];
            let added = self.add_bits(x, y, over)?;
            word.push(added.digit)?;
            over = added.carry;
        }
        Ok(Total { word, carry: over })
    }

    /// The sum of two words of one width, modulo 2 to the power of it.
    #[tactic(auto, using(crate::proofs::Words::mod_steps))]
    pub fn add(&mut self, alloc: Global, a: &[Bit], b: &[Bit]) -> Result<Seq<Bit>, Want>
        requires same { length b.now ≡ length a.now }
        requires left { word_bound a.now ≤ variables self.old }
        requires right { word_bound b.now ≤ variables self.old }
        requires room { variables self.old + 3 * length a.now < 2 ^ 31 }
        ensures grown { GrownCircuit self.old self.new }
        ensures cost { OnOk result (variables self.new ≤ variables self.old + 3 * length a.now) }
        ensures width { IfOk result (λ r. length r ≡ length a.now) }
        ensures inside { IfOk result (λ r. word_bound r ≤ variables self.new) }
        ensures value { IfOk result (λ r. (v : ℕ → Bool) →
            FollowsPlan v self.new → word_number v r ≡ (word_number v a.now + word_number v b.now) % 2 ^ length a.now) }
    {
        let total = self.add_carry(alloc, a, b, Bit::Fixed(false))?;
        Ok(total.word)
    }

    /// The sum of `a`, of the word whose bits are those of `b` turned, and of 1.
    #[tactic(auto, using(crate::proofs::Words::mod_steps))]
    pub(crate) fn subtract(&mut self, alloc: Global, a: &[Bit], b: &[Bit]) -> Result<Total, Want>
        requires same { length b.now ≡ length a.now }
        requires left { word_bound a.now ≤ variables self.old }
        requires right { word_bound b.now ≤ variables self.old }
        requires room { variables self.old + 3 * length a.now < 2 ^ 31 }
        ensures grown { GrownCircuit self.old self.new }
        ensures cost { OnOk result (variables self.new ≤ variables self.old + 3 * length a.now) }
        ensures width { IfOk result (λ r. length r.word ≡ length a.now) }
        ensures inside { IfOk result (λ r. word_bound r.word ≤ variables self.new) }
        ensures carry_inside { IfOk result (λ r. bit_bound r.carry ≤ variables self.new) }
        ensures value { IfOk result (λ r. (v : ℕ → Bool) → FollowsPlan v self.new → word_number v r.word + 2 ^ length
            a.now * bit_number v r.carry + word_number v b.now ≡ word_number v a.now + 2 ^ length a.now) }
    {
        let turned = inverted(alloc, b)?;
        self.add_carry(alloc, a, turned.as_slice(), Bit::Fixed(true))
    }

    /// The difference of two words of one width, modulo 2 to the power of it.
    #[tactic(auto, using(crate::proofs::Words::mod_steps))]
    pub fn sub(&mut self, alloc: Global, a: &[Bit], b: &[Bit]) -> Result<Seq<Bit>, Want>
        requires same { length b.now ≡ length a.now }
        requires left { word_bound a.now ≤ variables self.old }
        requires right { word_bound b.now ≤ variables self.old }
        requires room { variables self.old + 3 * length a.now < 2 ^ 31 }
        ensures grown { GrownCircuit self.old self.new }
        ensures cost { OnOk result (variables self.new ≤ variables self.old + 3 * length a.now) }
        ensures width { IfOk result (λ r. length r ≡ length a.now) }
        ensures inside { IfOk result (λ r. word_bound r ≤ variables self.new) }
        ensures value { IfOk result (λ r. (v : ℕ → Bool) → FollowsPlan v self.new →
            word_number v r ≡ (word_number v a.now + 2 ^ length a.now - word_number v b.now) % 2 ^ length a.now) }
    {
        let total = self.subtract(alloc, a, b)?;
        Ok(total.word)
    }

    /// Minus a word, modulo 2 to the power of its width.
    #[tactic(auto, using(crate::proofs::Words::mod_steps))]
    pub fn neg(&mut self, alloc: Global, a: &[Bit]) -> Result<Seq<Bit>, Want>
        requires inside { word_bound a.now ≤ variables self.old }
        requires room { variables self.old + 3 * length a.now < 2 ^ 31 }
        ensures grown { GrownCircuit self.old self.new }
        ensures cost { OnOk result (variables self.new ≤ variables self.old + 3 * length a.now) }
        ensures width { IfOk result (λ r. length r ≡ length a.now) }
        ensures inside { IfOk result (λ r. word_bound r ≤ variables self.new) }
        ensures value { IfOk result (λ r. (v : ℕ → Bool) →
            FollowsPlan v self.new → word_number v r ≡ (2 ^ length a.now - word_number v a.now) % 2 ^ length a.now) }
    {
        let none = zeros(alloc, a.len())?;
        self.sub(alloc, none.as_slice(), a)
    }

    /// Whether the number of `a` is less than that of `b`.
    #[tactic(auto, using(crate::proofs::Words::mod_steps))]
    pub fn less(&mut self, alloc: Global, a: &[Bit], b: &[Bit]) -> Result<Bit, Want>
        requires same { length b.now ≡ length a.now }
        requires left { word_bound a.now ≤ variables self.old }
        requires right { word_bound b.now ≤ variables self.old }
        requires room { variables self.old + 3 * length a.now < 2 ^ 31 }
        ensures grown { GrownCircuit self.old self.new }
        ensures cost { OnOk result (variables self.new ≤ variables self.old + 3 * length a.now) }
        ensures inside { IfOk result (λ r. bit_bound r ≤ variables self.new) }
        ensures value { IfOk result (λ r. (v : ℕ → Bool) →
            FollowsPlan v self.new → bit_value v r ≡ ltb (word_number v a.now) (word_number v b.now)) }
    {
        let total = self.subtract(alloc, a, b)?;
        Ok(total.carry.negated())
    }

    /// Whether two words of one width have the same number.
    #[tactic(auto, using(crate::proofs::Words::word_steps))]
    pub fn equal(&mut self, a: &[Bit], b: &[Bit]) -> Result<Bit, Want>
        requires same { length b.now ≡ length a.now }
        requires left { word_bound a.now ≤ variables self.old }
        requires right { word_bound b.now ≤ variables self.old }
        requires room { variables self.old + 2 * length a.now < 2 ^ 31 }
        ensures grown { GrownCircuit self.old self.new }
        ensures cost { OnOk result (variables self.new ≤ variables self.old + 2 * length a.now) }
        ensures inside { IfOk result (λ r. bit_bound r ≤ variables self.new) }
        ensures value { IfOk result (λ r. (v : ℕ → Bool) →
            FollowsPlan v self.new → bit_value v r ≡ eqb (word_number v a.now) (word_number v b.now)) }
    {
        let mut same = Bit::Fixed(true);
        for i in 0..a.len() {
            let x = a[i];
            let y = b[i];
            let differ = self.xor(x, y)?;
            same = self.and(same, differ.negated())?;
        }
        Ok(same)
    }

    /// `a` where `test` is true, and `b` elsewhere.
    #[tactic(auto, using(crate::proofs::Words::word_steps))]
    pub fn choose_word(
        &mut self,
        alloc: Global,
        test: Bit,
        a: &[Bit],
        b: &[Bit],
    ) -> Result<Seq<Bit>, Want>
        requires test { bit_bound test ≤ variables self.old }
        requires same { length b.now ≡ length a.now }
        requires left { word_bound a.now ≤ variables self.old }
        requires right { word_bound b.now ≤ variables self.old }
        requires room { variables self.old + length a.now < 2 ^ 31 }
        ensures grown { GrownCircuit self.old self.new }
        ensures cost { OnOk result (variables self.new ≤ variables self.old + length a.now) }
        ensures width { IfOk result (λ r. length r ≡ length a.now) }
        ensures inside { IfOk result (λ r. word_bound r ≤ variables self.new) }
        ensures value { IfOk result (λ r. (v : ℕ → Bool) → FollowsPlan v self.new →
            word_number v r ≡ cond (bit_value v test) (word_number v a.now) (word_number v b.now)) }
    {
        let mut word = Seq::new(alloc);
        for i in 0..a.len() {
            let x = a[i];
            let y = b[i];
            let chosen = self.choose(test, x, y)?;
            word.push(chosen)?;
        }
        Ok(word)
    }
}

/// The word whose number is 0.
#[tactic(auto, using(crate::proofs::Words::word_steps))]
pub fn zeros(alloc: Global, width: usize) -> Result<Seq<Bit>, Want>
    ensures width { IfOk result (λ r. length r ≡ width) }
    ensures bound { IfOk result (λ r. word_bound r ≡ 0) }
    ensures value { IfOk result (λ r. (v : ℕ → Bool) → word_number v r ≡ 0) }
{
    filled(alloc, Bit::Fixed(false), width)
}

/// The word whose bits are those of `a`, each turned.
#[tactic(auto, using(crate::proofs::Words::word_steps))]
pub fn inverted(alloc: Global, a: &[Bit]) -> Result<Seq<Bit>, Want>
    ensures width { IfOk result (λ r. length r ≡ length a.now) }
    ensures bound { IfOk result (λ r. word_bound r ≤ word_bound a.now) }
    ensures value { IfOk result (λ r. (v : ℕ → Bool) → word_number v r ≡ 2 ^ length a.now - 1 - word_number v a.now) }
{
    let mut word = Seq::new(alloc);
    for i in 0..a.len() {
        let x = a[i];
        word.push(x.negated())?;
    }
    Ok(word)
}
