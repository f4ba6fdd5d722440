// A bit vector of a machine.
ghost use Rattle.std.specs.Prelude.{◌≡◌, ◌<◌, ◌≤◌, ◌^◌, ◌%◌, ◌-◌, ◌+◌, ◌/◌, MatchOption, true, false};
ghost use Rattle.sy_terms.specs.Values.{Bits};
ghost use Rattle.sy_terms.specs.BitVectors.{negative};
ghost use Rattle.sy_terms.specs.Theories.{valid};

/// A bit vector of 1 to 64 bits, as a number.
#[derive(Clone, Copy, Debug, PartialEq, Eq, PartialOrd, Ord, Hash)]
pub struct Word {
    width: u8,
    bits: u64,
    ghost is_valid: { valid (Bits width bits) ≡ true },
}

impl Word {
    /// The vector; `None` exactly where the width isn't from 1 to 64 or the number has more bits.
    pub fn new(width: u8, bits: u64) -> Option<Word>
        ensures { MatchOption result (valid (Bits width bits) ≡ false) (λ word. (word.width ≡ width) ×
            (word.bits ≡ bits)) }
    {
        if 1 <= width && width <= 64 && bits <= u64::MAX >> (64 - width) {
            Some(Word { width, bits })
        } else {
            None
        }
    }

    /// The vector of a number that is known to fit the width.
    pub(crate) fn made(width: u8, bits: u64) -> Word
        requires { valid (Bits width bits) ≡ true }
        ensures { Bits result.width result.bits ≡ Bits width bits }
    {
        Word { width, bits }
    }

    /// The vector of the number's lowest bits.
    pub(crate) fn lowest(width: u8, number: u64) -> Word
        requires least { 1 ≤ width }
        requires most { width ≤ 64 }
        ensures { Bits result.width result.bits ≡ Bits width (number % 2 ^ width) }
    {
        Word::made(width, sy_meaning_core::lowest(width, number))
    }

    /// The greatest number of a width.
    pub(crate) fn greatest(width: u8) -> u64
        requires least { 1 ≤ width }
        requires most { width ≤ 64 }
        ensures { result ≡ 2 ^ width - 1 }
    {
        sy_meaning_core::greatest(width)
    }

    /// The vector whose top bit alone is 1.
    pub(crate) fn top(width: u8) -> Word
        requires least { 1 ≤ width }
        requires most { width ≤ 64 }
        ensures { Bits result.width result.bits ≡ Bits width (2 ^ (width - 1)) }
    {
        Word::made(width, 1 << (width - 1))
    }

    /// So many bits from a place up.
    pub(crate) fn part(self, low: u8, count: u8) -> Word
        requires some { 1 ≤ count }
        requires within { low + count ≤ self.width }
        ensures { Bits result.width result.bits ≡ Bits count (self.bits / 2 ^ low % 2 ^ count) }
    {
        Word::lowest(count, self.bits >> low)
    }

    /// Whether the top bit is 1.
    pub(crate) fn is_negative(self) -> bool
        ensures { result ≡ negative self.width self.bits }
    {
        sy_meaning_core::is_negative(self.width, self.bits)
    }

    /// How many bits there are.
    pub fn width(&self) -> u8
        ensures { result ≡ self.now.width }
    {
        self.width
    }

    /// The number, below two to the width.
    pub fn bits(&self) -> u64
        ensures { result ≡ self.now.bits }
    {
        self.bits
    }
}
