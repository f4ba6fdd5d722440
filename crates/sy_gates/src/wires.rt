ghost use Rattle.std.specs.Prelude.{◌≡◌, ℕ, Bool, ◌+◌, ◌-◌, ◌*◌, ◌/◌, ◌%◌, ◌^◌, ◌<◌, ◌≤◌, cond, max, length, take, drop, OnOk, IfOk, [], ◌++◌, ◌∷◌};
ghost use Rattle.sy_gates.specs.Circuits.{bit_value, bit_bound, word_bound, word_number};
ghost use Rattle.sy_gates.specs.Arithmetic.{copies_of};

use crate::gate::Bit;
use crate::word::zeros;
use std::alloc::Global;
use sy_seq::{Seq, Want};

/// The word whose lower bits are those of `low` and whose upper bits are those of `high`.
#[tactic(auto, using(crate::proofs::Places::wire_steps))]
pub fn joined(alloc: Global, low: &[Bit], high: &[Bit]) -> Result<Seq<Bit>, Want>
    ensures items { IfOk result (λ r. r ≡ low.now ++ high.now) }
    ensures bound { IfOk result (λ r. word_bound r ≡ max (word_bound low.now) (word_bound high.now)) }
    ensures value { IfOk result (λ r. (v : ℕ → Bool) →
        word_number v r ≡ word_number v high.now * 2 ^ length low.now + word_number v low.now) }
{
    let mut word = Seq::new(alloc);
    for bit in low {
        word.push(*bit)?;
    }
    for bit in high {
        word.push(*bit)?;
    }
    Ok(word)
}

/// The word of `width` bits that are all `bit`.
pub fn filled(alloc: Global, bit: Bit, width: usize) -> Result<Seq<Bit>, Want>
    ensures width { IfOk result (λ r. length r ≡ width) }
    ensures bound { IfOk result (λ r. word_bound r ≤ bit_bound bit) }
    ensures value { IfOk result (λ r. (v : ℕ → Bool) → word_number v r ≡ cond (bit_value v bit) (2 ^ width - 1) 0) }
{
    let mut word = Seq::new(alloc);
    for i in 0..width {
        word.push(bit)?;
    }
    Ok(word)
}

/// The word of `width` bits whose number is `number`, modulo 2 to the power of `width`.
pub fn constant(alloc: Global, width: usize, number: u64) -> Result<Seq<Bit>, Want>
    ensures width { IfOk result (λ r. length r ≡ width) }
    ensures bound { IfOk result (λ r. word_bound r ≡ 0) }
    ensures value { IfOk result (λ r. (v : ℕ → Bool) → word_number v r ≡ number % 2 ^ width) }
{
    let mut word = Seq::new(alloc);
    let mut rest = number;
    for i in 0..width {
        word.push(Bit::Fixed(rest % 2 == 1))?;
        rest /= 2;
    }
    Ok(word)
}

/// The bits of `a` from `from` to below `to`.
#[tactic(auto, using(crate::proofs::Places::wire_steps))]
pub fn part(alloc: Global, a: &[Bit], from: usize, to: usize) -> Result<Seq<Bit>, Want>
    requires order { from ≤ to }
    requires within { to ≤ length a.now }
    ensures width { IfOk result (λ r. length r ≡ to - from) }
    ensures bound { IfOk result (λ r. word_bound r ≤ word_bound a.now) }
    ensures value { IfOk result (λ r. (v : ℕ → Bool) →
        word_number v r ≡ word_number v a.now / 2 ^ from % 2 ^ (to - from)) }
{
    let word = joined(alloc, &a[from..to], &[])?;
    Ok(word)
}

/// The bits of `a` moved up by `by` places.
#[tactic(auto, using(crate::proofs::Places::wire_steps))]
pub fn moved_up(alloc: Global, a: &[Bit], by: usize) -> Result<Seq<Bit>, Want>
    requires { by ≤ length a.now }
    ensures width { IfOk result (λ r. length r ≡ length a.now) }
    ensures bound { IfOk result (λ r. word_bound r ≤ word_bound a.now) }
    ensures value { IfOk result (λ r. (v : ℕ → Bool) →
        word_number v r ≡ word_number v a.now * 2 ^ by % 2 ^ length a.now) }
{
    let low = zeros(alloc, by)?;
    let word = joined(alloc, low.as_slice(), &a[..a.len() - by])?;
    Ok(word)
}

/// The bits of `a` moved down by `by` places, with `top` in the places that are left.
#[tactic(auto, using(crate::proofs::Places::wire_steps))]
pub fn moved_down(alloc: Global, a: &[Bit], by: usize, top: Bit) -> Result<Seq<Bit>, Want>
    requires { by ≤ length a.now }
    ensures width { IfOk result (λ r. length r ≡ length a.now) }
    ensures bound { IfOk result (λ r. word_bound r ≤ max (bit_bound top) (word_bound a.now)) }
    ensures value { IfOk result (λ r. (v : ℕ → Bool) → word_number v r ≡
        cond (bit_value v top) (2 ^ by - 1) 0 * 2 ^ (length a.now - by) + word_number v a.now / 2 ^ by) }
{
    let high = filled(alloc, top, by)?;
    let word = joined(alloc, &a[by..], high.as_slice())?;
    Ok(word)
}

/// The bits of `a` with `more` further bits `top` above them.
#[tactic(auto, using(crate::proofs::Places::wire_steps))]
pub fn extended(alloc: Global, a: &[Bit], more: usize, top: Bit) -> Result<Seq<Bit>, Want>
    requires { length a.now + more < 2 ^ 64 }
    ensures width { IfOk result (λ r. length r ≡ length a.now + more) }
    ensures bound { IfOk result (λ r. word_bound r ≤ max (bit_bound top) (word_bound a.now)) }
    ensures value { IfOk result (λ r. (v : ℕ → Bool) →
        word_number v r ≡ cond (bit_value v top) (2 ^ more - 1) 0 * 2 ^ length a.now + word_number v a.now) }
{
    let high = filled(alloc, top, more)?;
    let word = joined(alloc, a, high.as_slice())?;
    Ok(word)
}

/// The bits of `a` moved up by `by` places, the top ones coming in below.
#[tactic(auto, using(crate::proofs::Places::wire_steps))]
pub fn rotated_up(alloc: Global, a: &[Bit], by: usize) -> Result<Seq<Bit>, Want>
    requires { by ≤ length a.now }
    ensures width { IfOk result (λ r. length r ≡ length a.now) }
    ensures bound { IfOk result (λ r. word_bound r ≤ word_bound a.now) }
    ensures value { IfOk result (λ r. (v : ℕ → Bool) → word_number v r ≡
        word_number v a.now * 2 ^ by % 2 ^ length a.now + word_number v a.now / 2 ^ (length a.now - by)) }
{
    let seam = a.len() - by;
    let word = joined(alloc, &a[seam..], &a[..seam])?;
    Ok(word)
}

/// The bits of `a` moved down by `by` places, the lowest ones coming in above.
#[tactic(auto, using(crate::proofs::Places::wire_steps))]
pub fn rotated_down(alloc: Global, a: &[Bit], by: usize) -> Result<Seq<Bit>, Want>
    requires { by ≤ length a.now }
    ensures width { IfOk result (λ r. length r ≡ length a.now) }
    ensures bound { IfOk result (λ r. word_bound r ≤ word_bound a.now) }
    ensures value { IfOk result (λ r. (v : ℕ → Bool) → word_number v r ≡
        word_number v a.now / 2 ^ by + word_number v a.now * 2 ^ (length a.now - by) % 2 ^ length a.now) }
{
    let word = rotated_up(alloc, a, a.len() - by)?;
    Ok(word)
}

/// `times` copies of `a`, each above the one before.
#[tactic(auto, using(crate::proofs::Places::wire_steps))]
pub fn repeated(alloc: Global, a: &[Bit], times: usize) -> Result<Seq<Bit>, Want>
    ensures width { IfOk result (λ r. length r ≡ times * length a.now) }
    ensures bound { IfOk result (λ r. word_bound r ≤ word_bound a.now) }
    ensures value { IfOk result (λ r. (v : ℕ → Bool) →
        word_number v r ≡ copies_of (length a.now) (word_number v a.now) times) }
{
    let mut word = Seq::new(alloc);
    for i in 0..times {
        word = joined(alloc, word.as_slice(), a)?;
    }
    Ok(word)
}
