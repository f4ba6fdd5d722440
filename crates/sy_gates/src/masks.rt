ghost use Rattle.std.specs.Prelude.{◌≡◌, ℕ, Bool, ◌+◌, ◌*◌, ◌^◌, ◌≤◌, ◌<◌, ◌%◌, ◌-◌, ◌↔◌, cond, IsTrue, length, OnOk, IfOk, IfSome};
ghost use Rattle.sy_gates.specs.declared.gate.Bit.TheVariants.{Of};
ghost use Rattle.sy_gates.specs.Circuits.{variables, FollowsPlan, GrownCircuit, bit_value, bit_bound, lit_value, word_bound, word_number};

use crate::circuit::Circuit;
use crate::gate::{Bit, same_literal};
use crate::word::zeros;
use std::alloc::Global;
use sy_clauses::Lit;
use sy_seq::{Seq, Want};

/// A word that is all ones where `bit` is true. Elsewhere it is 1 if it is odd there, and otherwise 0.
#[derive(Clone, Copy)]
pub struct Sign {
    pub bit: Bit,
    pub odd: bool,
}

/// Whether the bit is this literal.
fn is_literal(bit: Bit, literal: Lit) -> bool
    ensures { IsTrue result ↔ (bit ≡ Of literal) }
{
    match bit {
        Bit::Fixed(_) => false,
        Bit::Of(other) => same_literal(other, literal),
    }
}

/// Whether all bits are this literal.
fn are_all(bits: &[Bit], literal: Lit) -> bool
    ensures { IsTrue result → (v : ℕ → Bool) →
        word_number v bits.now ≡ cond (lit_value v literal) (2 ^ length bits.now - 1) 0 }
{
    for bit in bits {
        if !is_literal(*bit, literal) {
            return false;
        }
    }
    true
}

/// The sign that a word is, where its bits above the first are one literal, and the first is true or that literal too.
pub fn sign_of(word: &[Bit]) -> Option<Sign>
    ensures bound { IfSome result (λ sign. bit_bound sign.bit ≤ word_bound word.now) }
    ensures value { IfSome result (λ sign. (v : ℕ → Bool) →
        word_number v word.now ≡ cond (bit_value v sign.bit) (2 ^ length word.now - 1) (cond sign.odd 1 0)) }
{
    let (first, above) = word.split_first()?;
    let Bit::Of(literal) = *above.first()? else {
        return None;
    };
    let odd = matches!(*first, Bit::Fixed(true));
    if (odd || is_literal(*first, literal)) && are_all(above, literal) {
        Some(Sign {
            bit: Bit::Of(literal),
            odd,
        })
    } else {
        None
    }
}

impl Circuit {
    /// The product of a word and a sign, modulo 2 to the power of the width.
    pub(crate) fn times_sign(
        &mut self,
        alloc: Global,
        a: &[Bit],
        sign: Sign,
    ) -> Result<Seq<Bit>, Want>
        requires word { word_bound a.now ≤ variables self.old }
        requires sign { bit_bound sign.bit ≤ variables self.old }
        requires room { variables self.old + 4 * length a.now < 2 ^ 31 }
        ensures grown { GrownCircuit self.old self.new }
        ensures cost { OnOk result (variables self.new ≤ variables self.old + 4 * length a.now) }
        ensures width { IfOk result (λ r. length r ≡ length a.now) }
        ensures inside { IfOk result (λ r. word_bound r ≤ variables self.new) }
        ensures value { IfOk result (λ r. (v : ℕ → Bool) → FollowsPlan v self.new → word_number v r ≡ word_number v
            a.now * cond (bit_value v sign.bit) (2 ^ length a.now - 1) (cond sign.odd 1 0) % 2 ^ length a.now) }
    {
        let minus = self.neg(alloc, a)?;
        let none = zeros(alloc, a.len())?;
        let other = if sign.odd { a } else { none.as_slice() };
        let word = self.choose_word(alloc, sign.bit, minus.as_slice(), other)?;
        Ok(word)
    }
}
