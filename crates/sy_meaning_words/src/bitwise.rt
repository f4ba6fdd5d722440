// Operators bit by bit.
ghost use Rattle.std.specs.Prelude.{◌≡◌, bit_and, bit_or, bit_xor};
ghost use Rattle.sy_terms.specs.Values.{Bits};
ghost use Rattle.sy_terms.specs.BitVectors as bv;

use crate::word::Word;

/// Each bit turned.
pub(crate) fn inverted(s: Word) -> Word
    ensures { Bits result.width result.bits ≡ Bits s.width (bv.inverted s.width s.bits) }
{
    Word::made(s.width(), Word::greatest(s.width()) - s.bits())
}

/// `s` and `t`.
pub(crate) fn and(s: Word, t: Word) -> Word
    requires { s.width ≡ t.width }
    ensures { Bits result.width result.bits ≡ Bits s.width (bit_and s.bits t.bits) }
{
    Word::made(s.width(), s.bits() & t.bits())
}

/// `s` or `t`.
pub(crate) fn or(s: Word, t: Word) -> Word
    requires { s.width ≡ t.width }
    ensures { Bits result.width result.bits ≡ Bits s.width (bit_or s.bits t.bits) }
{
    Word::made(s.width(), s.bits() | t.bits())
}

/// Either `s` or `t`.
pub(crate) fn xor(s: Word, t: Word) -> Word
    requires { s.width ≡ t.width }
    ensures { Bits result.width result.bits ≡ Bits s.width (bit_xor s.bits t.bits) }
{
    Word::made(s.width(), s.bits() ^ t.bits())
}

/// Not both.
pub(crate) fn nand(s: Word, t: Word) -> Word
    requires { s.width ≡ t.width }
    ensures { Bits result.width result.bits ≡ Bits s.width (bv.inverted s.width (bit_and s.bits t.bits)) }
{
    inverted(and(s, t))
}

/// Neither.
pub(crate) fn nor(s: Word, t: Word) -> Word
    requires { s.width ≡ t.width }
    ensures { Bits result.width result.bits ≡ Bits s.width (bv.inverted s.width (bit_or s.bits t.bits)) }
{
    inverted(or(s, t))
}

/// Both or neither.
pub(crate) fn xnor(s: Word, t: Word) -> Word
    requires { s.width ≡ t.width }
    ensures { Bits result.width result.bits ≡ Bits s.width (bv.inverted s.width (bit_xor s.bits t.bits)) }
{
    inverted(xor(s, t))
}
