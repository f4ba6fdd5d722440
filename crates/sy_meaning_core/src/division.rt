// Quotients and remainders, without a sign and of two's complement.
ghost use Rattle.std.specs.Prelude.{◌≡◌, true};
ghost use Rattle.sy_terms.specs.Values.{Bits};
ghost use Rattle.sy_terms.specs.Theories.{valid};
ghost use Rattle.sy_terms.specs.BitVectors as bv;

use crate::wrapped::{greatest, is_negative, negated, sum};

/// The quotient rounded down; all ones where `t` is 0.
pub fn quotient(width: u8, s: u64, t: u64) -> u64
    requires s { valid (Bits width s) ≡ true }
    requires t { valid (Bits width t) ≡ true }
    ensures is { result ≡ bv.quotient width s t }
    ensures fits { valid (Bits width result) ≡ true }
{
    if t == 0 { greatest(width) } else { s / t }
}

/// The remainder; `s` where `t` is 0.
pub fn remainder(width: u8, s: u64, t: u64) -> u64
    requires s { valid (Bits width s) ≡ true }
    requires t { valid (Bits width t) ≡ true }
    ensures is { result ≡ bv.remainder width s t }
    ensures fits { valid (Bits width result) ≡ true }
{
    if t == 0 { s } else { s % t }
}

/// The absolute value, which is a number below two to the width.
fn magnitude(width: u8, s: u64) -> u64
    requires { valid (Bits width s) ≡ true }
    ensures is { result ≡ bv.magnitude width s }
    ensures fits { valid (Bits width result) ≡ true }
{
    if is_negative(width, s) {
        negated(width, s)
    } else {
        s
    }
}

/// The quotient of the absolute values, negated where the top bits differ.
pub fn signed_quotient(width: u8, s: u64, t: u64) -> u64
    requires s { valid (Bits width s) ≡ true }
    requires t { valid (Bits width t) ≡ true }
    ensures is { result ≡ bv.signed_quotient width s t }
    ensures fits { valid (Bits width result) ≡ true }
{
    let found = quotient(width, magnitude(width, s), magnitude(width, t));
    match (is_negative(width, s), is_negative(width, t)) {
        (false, false) | (true, true) => found,
        _ => negated(width, found),
    }
}

/// The remainder of the absolute values, negated where `s` is negative.
pub fn signed_remainder(width: u8, s: u64, t: u64) -> u64
    requires s { valid (Bits width s) ≡ true }
    requires t { valid (Bits width t) ≡ true }
    ensures is { result ≡ bv.signed_remainder width s t }
    ensures fits { valid (Bits width result) ≡ true }
{
    let found = remainder(width, magnitude(width, s), magnitude(width, t));
    if is_negative(width, s) {
        negated(width, found)
    } else {
        found
    }
}

/// The remainder of the absolute values, moved to the sign of `t`.
pub fn signed_modulus(width: u8, s: u64, t: u64) -> u64
    requires s { valid (Bits width s) ≡ true }
    requires t { valid (Bits width t) ≡ true }
    ensures is { result ≡ bv.signed_modulus width s t }
    ensures fits { valid (Bits width result) ≡ true }
{
    let found = remainder(width, magnitude(width, s), magnitude(width, t));
    if found == 0 {
        return found;
    }
    match (is_negative(width, s), is_negative(width, t)) {
        (false, false) => found,
        (true, false) => sum(width, negated(width, found), t),
        (false, true) => sum(width, found, t),
        (true, true) => negated(width, found),
    }
}
