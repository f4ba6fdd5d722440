// Sums and products, modulo two to the width.
ghost use Rattle.std.specs.Prelude.{◌≡◌};
ghost use Rattle.sy_terms.specs.Values.{Bits};
ghost use Rattle.sy_terms.specs.BitVectors as bv;

use crate::word::Word;

/// `-s`.
pub(crate) fn negated(s: Word) -> Word
    ensures { Bits result.width result.bits ≡ Bits s.width (bv.negated s.width s.bits) }
{
    let width = s.width();
    Word::made(width, sy_meaning_core::negated(width, s.bits()))
}

/// `s + t`.
pub(crate) fn sum(s: Word, t: Word) -> Word
    requires { s.width ≡ t.width }
    ensures { Bits result.width result.bits ≡ Bits s.width (bv.sum s.width s.bits t.bits) }
{
    let width = s.width();
    Word::made(width, sy_meaning_core::sum(width, s.bits(), t.bits()))
}

/// `s - t`.
pub(crate) fn difference(s: Word, t: Word) -> Word
    requires { s.width ≡ t.width }
    ensures { Bits result.width result.bits ≡ Bits s.width (bv.difference s.width s.bits t.bits) }
{
    Word::lowest(s.width(), s.bits().wrapping_sub(t.bits()))
}

/// `s * t`.
pub(crate) fn product(s: Word, t: Word) -> Word
    requires { s.width ≡ t.width }
    ensures { Bits result.width result.bits ≡ Bits s.width (bv.product s.width s.bits t.bits) }
{
    Word::lowest(s.width(), s.bits().wrapping_mul(t.bits()))
}
