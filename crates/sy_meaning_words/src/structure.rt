// Vectors made of the bits of others.
ghost use Rattle.std.specs.Prelude.{◌≡◌, ◌≤◌, ◌<◌, ◌+◌, ◌-◌, ◌*◌};
ghost use Rattle.sy_terms.specs.Values.{Bits};
ghost use Rattle.sy_terms.specs.BitVectors as bv;

use crate::word::Word;

/// The bits of `s`, and below them those of `t`.
pub(crate) fn joined(s: Word, t: Word) -> Word
    requires { s.width + t.width ≤ 64 }
    ensures { Bits result.width result.bits ≡ Bits (s.width + t.width) (bv.joined t.width s.bits t.bits) }
{
    Word::made(s.width() + t.width(), (s.bits() << t.width()) | t.bits())
}

/// The bits from `high` down to `low`.
pub(crate) fn extracted(high: u8, low: u8, s: Word) -> Word
    requires order { low ≤ high }
    requires within { high < s.width }
    ensures { Bits result.width result.bits ≡ Bits (high - low + 1) (bv.extracted high low s.bits) }
{
    s.part(low, high - low + 1)
}

/// So many copies of `s`.
pub(crate) fn repeated(copies: u8, s: Word) -> Word
    requires some { 1 ≤ copies }
    requires fits { copies * s.width ≤ 64 }
    ensures { Bits result.width result.bits ≡ Bits (copies * s.width) (bv.repeated copies s.width s.bits) }
{
    let mut all = s;
    for _ in 1..copies {
        all = joined(all, s);
    }
    all
}

/// `by` more top bits, each 0.
pub(crate) fn zero_extended(by: u8, s: Word) -> Word
    requires { s.width + by ≤ 64 }
    ensures { Bits result.width result.bits ≡ Bits (s.width + by) s.bits }
{
    Word::made(s.width() + by, s.bits())
}

/// `by` more top bits, each the top bit of `s`.
pub(crate) fn sign_extended(by: u8, s: Word) -> Word
    requires { s.width + by ≤ 64 }
    ensures { Bits result.width result.bits ≡ Bits (s.width + by) (bv.sign_extended by s.width s.bits) }
{
    let width = s.width() + by;
    if s.is_negative() {
        let added = Word::greatest(width) - Word::greatest(s.width());
        Word::made(width, s.bits() + added)
    } else {
        Word::made(width, s.bits())
    }
}

/// `s` turned to the left by `by` bits, modulo its width.
pub(crate) fn rotated_left(by: u8, s: Word) -> Word
    ensures { Bits result.width result.bits ≡ Bits s.width (bv.rotated_left by s.width s.bits) }
{
    let width = s.width();
    let count = by % width;
    if count == 0 {
        s
    } else {
        joined(s.part(0, width - count), s.part(width - count, count))
    }
}

/// `s` turned to the right by `by` bits, modulo its width.
pub(crate) fn rotated_right(by: u8, s: Word) -> Word
    ensures { Bits result.width result.bits ≡ Bits s.width (bv.rotated_right by s.width s.bits) }
{
    let width = s.width();
    let count = by % width;
    if count == 0 {
        s
    } else {
        joined(s.part(0, count), s.part(count, width - count))
    }
}
