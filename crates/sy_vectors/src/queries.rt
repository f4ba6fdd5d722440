// Queries as texts, a character for each node, which stands before those that it takes.
use crate::terms::node;
use std::alloc::Global;
use std::process::Abort;
use sy_query::{Limits, Query};
use sy_terms::{Seq, Sort, Term, Theory};

/// Ample limits.
pub const LIMITS: Limits = Limits {
    size: 12,
    rounds: 256,
    points: 512,
    bank: 20_000,
    weight: 400_000,
    clauses: 20_000,
    nodes: 4_000,
    pivots: 10_000,
};

/// The words of signs over vectors, where a digit and `F` are vectors of four bits.
pub const VECTORS: &str = "\
A a
B b
C c
T true
0 4:0
1 4:1
2 4:2
3 4:3
4 4:4
5 4:5
6 4:6
7 4:7
8 4:8
9 4:9
F 4:15
L let/1
& and/2
v or/2
? ite/3
= =/2
# distinct/2
~ bvnot/1
n bvneg/1
w bvand/2
x bvxor/2
+ bvadd/2
- bvsub/2
* bvmul/2
P bvadd/3
M bvmul/3
/ bvudiv/2
% bvurem/2
r bvsrem/2
m bvsmod/2
l bvshl/2
g bvlshr/2
a bvashr/2
< bvult/2
> bvugt/2
s bvslt/2
p bvcomp/2
c concat/2
e extract,6,3/1
z rotate_left,1/1
y rotate_right,3/1
Z zero_extend,4/1
N sign_extend,4/1
";

/// The words of signs over integers, where `M` is the greatest number of 128 bits, `N` the least, and `m` is -1.
pub const INTEGERS: &str = "\
A a
B b
C c
T true
0 0
1 1
2 2
3 3
4 4
5 5
6 6
7 7
8 8
9 9
M 170141183460469231731687303715884105727
N -170141183460469231731687303715884105728
m -1
l let/1
! not/1
& and/2
v or/2
^ xor/2
i =>/2
? ite/3
= =/2
+ +/2
- -/2
* */2
/ div/2
% mod/2
$ abs/1
< </2
L <=/2
> >/2
G >=/2
";

/// The word of this sign; the empty one where there is none.
fn word_of(words: &str, sign: u8) -> &str {
    for row in words.lines() {
        let (known, word) = row.split_once(' ').unwrap_or((row, ""));
        if known.as_bytes().get(0).copied() == Some(sign) {
            return word;
        }
    }
    ""
}

/// The term of this text.
fn term<T: Theory>(rt: &impl Abort, alloc: Global, words: &str, text: &str) -> Term<T> {
    let mut stack = Vec::new(alloc);
    for sign in text.as_bytes().iter().rev() {
        let node = node(rt, alloc, &mut stack, word_of(words, *sign));
        stack.push(node).expect(rt, text);
    }
    stack.pop().expect(rt, text)
}

/// The sort of this sign: `b` for truth values, `i` for integers, a digit for vectors of so many bits, and `@` and `p`
/// for those of 16 and 64.
fn sort_of(sign: u8) -> Sort {
    match sign {
        b'b' => Sort::Bool,
        b'i' => Sort::Int,
        digit => Sort::Bits(digit.wrapping_sub(b'0')),
    }
}

/// The query of these variables' sorts and this body, whose signs have these words.
pub fn query<T: Theory>(
    rt: &impl Abort,
    alloc: Global,
    words: &str,
    sorts: &str,
    body: &str,
) -> Query<T> {
    let mut vars = Seq::new(alloc);
    for sign in sorts.as_bytes() {
        vars.push(sort_of(*sign)).expect(rt, sorts);
    }
    let body = term::<T>(rt, alloc, words, body);
    Query { vars, body }
}
