// Quotients and remainders, without a sign and of two's complement.
ghost use Rattle.std.specs.Prelude.{◌≡◌};
ghost use Rattle.sy_terms.specs.Values.{Bits};
ghost use Rattle.sy_terms.specs.BitVectors as bv;

use crate::word::Word;

/// The quotient rounded down; all ones where `t` is 0.
pub(crate) fn quotient(s: Word, t: Word) -> Word
    requires { s.width ≡ t.width }
    ensures { Bits result.width result.bits ≡ Bits s.width (bv.quotient s.width s.bits t.bits) }
{
    let width = s.width();
    Word::made(width, sy_meaning_core::quotient(width, s.bits(), t.bits()))
}

/// The remainder; `s` where `t` is 0.
pub(crate) fn remainder(s: Word, t: Word) -> Word
    requires { s.width ≡ t.width }
    ensures { Bits result.width result.bits ≡ Bits s.width (bv.remainder s.width s.bits t.bits) }
{
    let width = s.width();
    Word::made(width, sy_meaning_core::remainder(width, s.bits(), t.bits()))
}

/// The quotient of the absolute values, negated where the top bits differ.
pub(crate) fn signed_quotient(s: Word, t: Word) -> Word
    requires { s.width ≡ t.width }
    ensures { Bits result.width result.bits ≡ Bits s.width (bv.signed_quotient s.width s.bits t.bits) }
{
    let width = s.width();
    Word::made(
        width,
        sy_meaning_core::signed_quotient(width, s.bits(), t.bits()),
    )
}

/// The remainder of the absolute values, negated where `s` is negative.
pub(crate) fn signed_remainder(s: Word, t: Word) -> Word
    requires { s.width ≡ t.width }
    ensures { Bits result.width result.bits ≡ Bits s.width (bv.signed_remainder s.width s.bits t.bits) }
{
    let width = s.width();
    Word::made(
        width,
        sy_meaning_core::signed_remainder(width, s.bits(), t.bits()),
    )
}

/// The remainder of the absolute values, moved to the sign of `t`.
pub(crate) fn signed_modulus(s: Word, t: Word) -> Word
    requires { s.width ≡ t.width }
    ensures { Bits result.width result.bits ≡ Bits s.width (bv.signed_modulus s.width s.bits t.bits) }
{
    let width = s.width();
    Word::made(
        width,
        sy_meaning_core::signed_modulus(width, s.bits(), t.bits()),
    )
}
