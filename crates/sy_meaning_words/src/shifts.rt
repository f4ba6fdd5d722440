// Shifts by a vector.
ghost use Rattle.std.specs.Prelude.{◌≡◌};
ghost use Rattle.sy_terms.specs.Values.{Bits};
ghost use Rattle.sy_terms.specs.BitVectors as bv;

use crate::bitwise::inverted;
use crate::word::Word;

/// `s` moved up by `t` bits; 0 where `t` is the width or more.
pub(crate) fn shifted_left(s: Word, t: Word) -> Word
    requires { s.width ≡ t.width }
    ensures { Bits result.width result.bits ≡ Bits s.width (bv.shifted_left s.width s.bits t.bits) }
{
    let width = s.width();
    if u64::from(width) <= t.bits() {
        return Word::made(width, 0);
    }
    Word::lowest(width, s.bits() << t.bits())
}

/// `s` moved down by `t` bits; 0 where `t` is the width or more.
pub(crate) fn shifted_right(s: Word, t: Word) -> Word
    requires { s.width ≡ t.width }
    ensures { Bits result.width result.bits ≡ Bits s.width (bv.shifted_right s.width s.bits t.bits) }
{
    let width = s.width();
    if t.bits() < u64::from(width) {
        Word::made(width, s.bits() >> t.bits())
    } else {
        Word::made(width, 0)
    }
}

/// `s` moved down by `t` bits and filled with its top bit.
pub(crate) fn shifted_right_signed(s: Word, t: Word) -> Word
    requires { s.width ≡ t.width }
    ensures { Bits result.width result.bits ≡ Bits s.width (bv.shifted_right_signed s.width s.bits t.bits) }
{
    if s.is_negative() {
        inverted(shifted_right(inverted(s), t))
    } else {
        shifted_right(s, t)
    }
}
