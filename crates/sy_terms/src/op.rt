// The operators of SMT-LIB 2.6, in Core, Ints and FixedSizeBitVectors.
ghost use Rattle.std.specs.Prelude.{◌≡◌, ◌↔◌, IsTrue};

/// An operator with its indices. Where no number of arguments is named, there are one or two, as in SMT-LIB.
#[derive(Clone, Copy, Debug, PartialEq, Eq)]
pub enum Op {
    // Core, in both logics
    /// `not`: negation
    Not,
    /// `and`: all of one or more truth values
    And,
    /// `or`: some of one or more truth values
    Or,
    /// `xor`: exclusive or of two or more, left associative
    Xor,
    /// `=>`: implication of two or more, right associative
    Implies,
    /// `=`: equality of each neighbour pair of two or more values of one sort
    Equal,
    /// `distinct`: difference of all pairs of two or more values of one sort
    Distinct,
    /// `ite`: the second argument where the first is true, and else the third
    Ite,

    // Ints
    /// `-`: the negated integer
    Neg,
    /// `-`: difference of two or more, left associative
    Sub,
    /// `+`: sum of two or more
    Add,
    /// `*`: product of two or more
    Mul,
    /// `div`: quotient of two or more, left associative: `m = n * q + r` with `0 <= r < |n|`; 0 where `n` is 0
    Div,
    /// `mod`: that remainder; `m` where `n` is 0
    Mod,
    /// `abs`: the greater of an integer and its negation
    Abs,
    /// `<=`: each of two or more is at most the next
    Le,
    /// `<`: each is less than the next
    Lt,
    /// `>=`: each is at least the next
    Ge,
    /// `>`: each is greater than the next
    Gt,

    // FixedSizeBitVectors
    /// `concat`: the bits of the first, above those of the second
    Concat,
    /// `(_ extract i j)`: bits `i` down to `j`, with `j <= i < width`
    Extract(u8, u8),
    /// `bvnot`: each bit turned
    BvNot,
    /// `bvneg`: two's complement
    BvNeg,
    /// `bvand`: bitwise and of two or more
    BvAnd,
    /// `bvor`: bitwise or of two or more
    BvOr,
    /// `bvxor`: bitwise exclusive or of two or more
    BvXor,
    /// `bvadd`: sum of two or more, modulo two to the width
    BvAdd,
    /// `bvmul`: product of two or more, modulo two to the width
    BvMul,
    /// `bvsub`: difference, modulo two to the width
    BvSub,
    /// `bvnand`: negated bitwise and
    BvNand,
    /// `bvnor`: negated bitwise or
    BvNor,
    /// `bvxnor`: negated bitwise exclusive or
    BvXnor,
    /// `bvcomp`: one bit, 1 where the two are equal
    BvComp,
    /// `bvudiv`: quotient rounded down; all ones for a zero divisor
    BvUdiv,
    /// `bvurem`: remainder; the dividend for a zero divisor
    BvUrem,
    /// `bvsdiv`: signed quotient, rounded towards zero
    BvSdiv,
    /// `bvsrem`: signed remainder, with the dividend's sign
    BvSrem,
    /// `bvsmod`: signed remainder, with the divisor's sign
    BvSmod,
    /// `bvshl`: shift left; 0 from the width on
    BvShl,
    /// `bvlshr`: shift right, filled with 0
    BvLshr,
    /// `bvashr`: shift right, filled with the top bit
    BvAshr,
    /// `(_ repeat i)`: so many copies, one or more
    Repeat(u8),
    /// `(_ zero_extend i)`: so many zero bits on top
    ZeroExtend(u8),
    /// `(_ sign_extend i)`: so many copies of the top bit on top
    SignExtend(u8),
    /// `(_ rotate_left i)`: rotation, modulo the width
    RotateLeft(u8),
    /// `(_ rotate_right i)`: rotation, modulo the width
    RotateRight(u8),
    /// `bvult`: unsigned less
    BvUlt,
    /// `bvule`: unsigned at most
    BvUle,
    /// `bvugt`: unsigned greater
    BvUgt,
    /// `bvuge`: unsigned at least
    BvUge,
    /// `bvslt`: less in two's complement
    BvSlt,
    /// `bvsle`: at most in two's complement
    BvSle,
    /// `bvsgt`: greater in two's complement
    BvSgt,
    /// `bvsge`: at least in two's complement
    BvSge,
}

impl Op {
    /// Whether the two are the same operator with the same indices.
    pub fn equals(&self, other: &Op) -> bool
        ensures { IsTrue result ↔ self.now ≡ other.now }
    {
        self == other
    }
}
