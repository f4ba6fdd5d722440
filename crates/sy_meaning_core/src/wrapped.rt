// The numbers of a width, and sums modulo two to the width.
ghost use Rattle.std.specs.Prelude.{◌≡◌, ◌≤◌, ◌^◌, ◌%◌, ◌-◌, true};
ghost use Rattle.sy_terms.specs.Values.{Bits};
ghost use Rattle.sy_terms.specs.Theories.{valid};
ghost use Rattle.sy_terms.specs.BitVectors as bv;

/// The greatest number of a width.
pub fn greatest(width: u8) -> u64
    requires least { 1 ≤ width }
    requires most { width ≤ 64 }
    ensures { result ≡ 2 ^ width - 1 }
{
    u64::MAX >> (64 - width)
}

/// The number's lowest bits.
pub fn lowest(width: u8, number: u64) -> u64
    requires least { 1 ≤ width }
    requires most { width ≤ 64 }
    ensures { result ≡ number % 2 ^ width }
{
    number & (u64::MAX >> (64 - width))
}

/// Whether the top bit is 1.
pub fn is_negative(width: u8, s: u64) -> bool
    requires { valid (Bits width s) ≡ true }
    ensures { result ≡ bv.negative width s }
{
    1 << (width - 1) <= s
}

/// `-s`.
pub fn negated(width: u8, s: u64) -> u64
    requires { valid (Bits width s) ≡ true }
    ensures is { result ≡ bv.negated width s }
    ensures fits { valid (Bits width result) ≡ true }
{
    lowest(width, 0u64.wrapping_sub(s))
}

/// `s + t`.
pub fn sum(width: u8, s: u64, t: u64) -> u64
    requires s { valid (Bits width s) ≡ true }
    requires t { valid (Bits width t) ≡ true }
    ensures is { result ≡ bv.sum width s t }
    ensures fits { valid (Bits width result) ≡ true }
{
    lowest(width, s.wrapping_add(t))
}
