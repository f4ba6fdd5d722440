// What is wrong with text.

/// What is wrong with the bytes, and at which offset: the first fault from left to right.
#[derive(Clone, Copy, Debug, PartialEq, Eq)]
pub enum TextFault {
    /// A byte that cannot continue what was read, as a control byte, a byte that may not follow an atom,
    /// a second digit after a leading `0`, or `\` in bars. The offset is its own.
    BadByte(usize),
    /// The input ends inside a list, bars or quotes, or after `#`, `#x`, `#b`, `:`, or a numeral and `.`.
    /// The offset is that of the innermost of these.
    Unclosed(usize),
    /// A `)` where no list is open. The offset is its own.
    Stray(usize),
    /// A numeral above 2^127 - 1 or a vector of more than 64 bits, after which a separator or the end
    /// stands. The offset is that of its first byte.
    LiteralRange(usize),
    /// A `(` inside 1,200 open lists. The offset is its own.
    TooDeep(usize),
}
