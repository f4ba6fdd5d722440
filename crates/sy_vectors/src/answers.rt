// What the solver answers to small queries by assignments that are tried before any search, and by few variables.
use crate::queries::{LIMITS, VECTORS, query};
use crate::rows::{field, number};
use std::alloc::Global;
use std::process::Abort;
use sy_bits::{BvDecide, fits};
use sy_clauses::check;
use sy_meaning_words::{BvTheory, Word};
use sy_query::{Decide, Limits, Query, Verdict};
use sy_terms::{Sort, Value};

/// Whether the values are these numbers.
fn are_values(values: &[Value<Word>], numbers: &str) -> bool {
    let mut numbers = numbers.split_whitespace();
    let mut are_told = true;
    for value in values {
        let number = match value {
            Value::Truth(truth) => u64::from(*truth),
            Value::Num(word) => word.bits(),
        };
        are_told &= numbers.next().unwrap_or("").parse() == Ok(number);
    }
    are_told & numbers.next().is_none()
}

/// Whether it is answered as is told where so many clauses may be learned: the numbers of a model; or `never`, by a log
/// that the checker accepts and a formula of so many variables at most; or `unfit` for what isn't a query.
fn answers<R: Abort>(
    rt: &R,
    alloc: Global,
    query: &Query<BvTheory>,
    clauses: u32,
    variables: u32,
    told: &str,
) -> bool {
    if !fits(alloc, query).expect(rt, told) {
        return told == "unfit";
    }
    let limits = Limits { clauses, ..LIMITS };
    let verdict = BvDecide::new().decide(alloc, query, &limits);
    let verdict = verdict.expect(rt, told);
    let is_told = match &verdict {
        Verdict::Model(values) => are_values(values.as_slice(), told),
        Verdict::Never(proof) => {
            told == "never"
                && proof.cnf.vars <= variables
                && check(alloc, &proof.cnf, &proof.log).expect(rt, told)
        }
        Verdict::Spent(_) => false,
    };
    drop(verdict);
    is_told
}

/// Whether the row is right.
pub fn is_right<R: Abort>(rt: &R, alloc: Global, row: &str) -> bool {
    let query = query::<BvTheory>(rt, alloc, VECTORS, field(row, 0), field(row, 1));
    let is_right = answers(
        rt,
        alloc,
        &query,
        number(row, 2),
        number(row, 3),
        field(row, 4),
    );
    drop(query);
    is_right
}

/// The variables' sorts, the body, how many clauses may be learned, how many variables the clauses may have, and the
/// answer.
///
/// Models, where no clause may be learned and no search is made: an assignment that is tried before. Sums and products
/// of variables that need no gate, remainders and shifts of a vector by itself, and signed shifts by constants, against
/// copies of the sign beside the bits that are left: one variable beside the variables' bits.
pub const ROWS: &str = "\
4|A|9|0|unfit
0|T|9|0|unfit
4|=AB|9|0|unfit
b44|?A=B3|9|0|unfit
4|=A9|0|0|9
4|&>A5<A7|0|0|6
44|#gAB/Al1B|0|0|8 7
88|#*A+BA+*AB*AA|1|17|never
pp|#*A+BA+*AB*AA|1|129|never
88|#*+AB+AB++*AA+*AB*AB*BB|1|17|never
pp|#*+AB+AB++*AA+*AB*AB*BB|1|129|never
pp|L+AB#*CC++*AA+*AB*AB*BB|1|129|never
88|#*+AB-AB-*AA*BB|1|17|never
pp|#*+AB-AB-*AA*BB|1|129|never
888|#+*+*ACBCA++**ACC*BCA|1|25|never
ppp|#+*+*ACBCA++**ACC*BCA|1|193|never
pp|#PABA++AAB|1|129|never
pp|#MABA**AAB|1|129|never
pp|<+AB+BA|1|129|never
pp|L~A#*AB*BA|1|129|never
1|#aAA?sAxAA~xAAxAA|1|2|never
8|#aAA?sAxAA~xAAxAA|1|9|never
p|#aAA?sAxAA~xAAxAA|1|65|never
4|#aA1ezzNA|1|5|never
8|#aAZ4NezzyA|1|9|never
p|#aAZZZZZZZZZZZZZZc3FNNNNNNNNNNNNNNNezzyNezzzzzzzA|1|65|never
8|#gAAxAA|1|9|never
p|#gAAxAA|1|65|never
8|#%AAxAA|1|9|never
p|#%AAxAA|1|65|never
8|#rAAxAA|1|9|never
p|#rAAxAA|1|65|never
8|#mAAxAA|1|9|never
p|#mAAxAA|1|65|never
";

/// Whether nothing satisfies the body over two vectors of each width, by no learned clause beside the empty one and
/// 17,000 variables at most.
pub fn is_plain<R: Abort>(rt: &R, alloc: Global, body: &str) -> bool {
    let mut is_plain = true;
    for width in 1..65 {
        let mut query = query::<BvTheory>(rt, alloc, VECTORS, "", body);
        query.vars.push(Sort::Bits(width)).expect(rt, body);
        query.vars.push(Sort::Bits(width)).expect(rt, body);
        is_plain &= answers(rt, alloc, &query, 1, 17_000, "never");
        drop(query);
    }
    is_plain
}

/// A product, quotients and shifts, each against itself.
pub const THEMSELVES: &str = "\
#*wABB*wABB
#/AB/AB
#%AB%AB
#lABlAB
#gABgAB
#aABaAB
";
