// Equality and orders.
ghost use Rattle.std.specs.Prelude.{◌≡◌, nat_eq, cond, nat_lt, nat_le};
ghost use Rattle.sy_terms.specs.Values.{Bits};
ghost use Rattle.sy_terms.specs.BitVectors as bv;

use crate::arithmetic::sum;
use crate::word::Word;

/// One bit: 1 where both are equal.
pub(crate) fn compared(s: Word, t: Word) -> Word
    requires { s.width ≡ t.width }
    ensures { Bits result.width result.bits ≡ Bits 1 (cond (nat_eq s.bits t.bits) 1 0) }
{
    Word::made(1, u64::from(s.bits() == t.bits()))
}

/// `s < t`, as numbers without a sign.
pub(crate) fn less(s: Word, t: Word) -> bool
    ensures { result ≡ nat_lt s.bits t.bits }
{
    s.bits() < t.bits()
}

/// `s <= t`, as numbers without a sign.
pub(crate) fn at_most(s: Word, t: Word) -> bool
    ensures { result ≡ nat_le s.bits t.bits }
{
    s.bits() <= t.bits()
}

/// `s < t`, as numbers of two's complement.
pub(crate) fn signed_less(s: Word, t: Word) -> bool
    requires { s.width ≡ t.width }
    ensures { result ≡ bv.signed_less s.width s.bits t.bits }
{
    let top = Word::top(s.width());
    sum(s, top).bits() < sum(t, top).bits()
}
