// Atoms, and the places of items.
use sy_seq::Seq;

/// A list of bytes.
pub type Name = Seq<u8>;

/// The offset of an atom's first byte or of a list's opening bracket, counted from 0.
#[derive(Clone, Copy, Debug, PartialEq, Eq)]
pub struct Place {
    pub at: usize,
}

/// An item without parts, as SMT-LIB 2.6 spells it. Symbol bytes are letters, digits and these:
/// `~ ! @ $ % ^ & * _ - + = < > . ? /`. Between bars or quotes any byte may stand but 127 and control bytes other than
/// 9, 10 and 13.
#[derive(Drop)]
pub enum Atom {
    /// Symbol bytes of which the first is no digit, or any bytes in bars but `|` and `\`. Both
    /// spellings of the same bytes are the same symbol, which is kept without its bars.
    Symbol(Name),
    /// `:` and one or more symbol bytes, which may begin with a digit. They are kept without the `:`.
    Keyword(Name),
    /// `0`, or decimal digits of which the first isn't `0`; at most 2^127 - 1.
    Numeral(u128),
    /// A numeral of any length, `.`, and one or more digits, kept as its bytes.
    Decimal(Name),
    /// A width from 1 to 64 and a number below 2^width: `#b` and one digit a bit, or `#x` and one digit of
    /// either case for four bits.
    Bits(u8, u64),
    /// Bytes in quotes, where `""` stands for one quote. They are kept with each quote once.
    Text(Name),
}
