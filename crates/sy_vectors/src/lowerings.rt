// Queries without division, remainder and absolute value.
use crate::queries::query;
use crate::rows::field;
use crate::terms::term;
use std::alloc::Global;
use std::process::Abort;
use sy_lower::lower;
use sy_meaning_integers::IntTheory;
use sy_query::Query;
use sy_terms::{Seq, Sort, Term};

/// Whether each variable is an integer, and there are so many as the text has signs.
fn are_integers(sorts: &Seq<Sort>, signs: &str) -> bool {
    sorts.len() == signs.len()
        && sorts
            .as_slice()
            .iter()
            .all(|sort| matches!(sort, Sort::Int))
}

/// The query of integers, as many as the text has signs, and of this body.
fn asked(rt: &impl Abort, alloc: Global, signs: &str, body: Term<IntTheory>) -> Query<IntTheory> {
    let mut asked = query::<IntTheory>(rt, alloc, "T true", signs, "T");
    asked.body = body;
    asked
}

/// Whether the row's query is lowered as it tells.
pub fn is_right(rt: &impl Abort, alloc: Global, row: &str) -> bool {
    let body = term::<IntTheory>(rt, alloc, field(row, 1));
    let query = asked(rt, alloc, field(row, 0), body);
    let lowered = lower(alloc, &query).expect(rt, row);
    let told = term::<IntTheory>(rt, alloc, field(row, 3));
    let is_told = lowered.body.equals(&told);
    are_integers(&lowered.vars, field(row, 2)) & is_told
}

/// The variables, the body, the variables of the lowering, and its body: a remainder; a quotient and a remainder of one
/// division; a negative divisor; two divisors of one dividend; quotients of quotients; absolute values of a variable
/// and of a sum; a bound sum, and a bound constant; and divisions that stay, by 0 and by a variable.
pub const ROWS: &str = "\
i|=/2 mod/2 a 3 5|iii|and/4 =/2 a +/2 */2 3 b c <=/2 0 c <=/2 c 2 =/2 c 5
i|=/2 +/2 */2 4 div/2 a 4 mod/2 a 4 a|iii|and/4 =/2 a +/2 */2 4 b c <=/2 0 c <=/2 c 3 =/2 +/2 */2 4 b c a
i|=/2 div/2 a neg/1 3 1|iii|and/4 =/2 a +/2 */2 -3 b c <=/2 0 c <=/2 c 2 =/2 b 1
i|=/2 div/2 a 2 div/2 a 3|iiiii|and/7 =/2 a +/2 */2 2 b c <=/2 0 c <=/2 c 1 =/2 a +/2 */2 3 d e <=/2 0 e <=/2 e 2 =/2 b d
i|=/2 div/3 a 2 3 1|iiiii|and/7 =/2 a +/2 */2 2 b c <=/2 0 c <=/2 c 1 =/2 b +/2 */2 3 d e <=/2 0 e <=/2 e 2 =/2 d 1
i|</2 abs/1 a 0|i|and/1 </2 ite/3 <=/2 0 a a neg/1 a 0
i|</2 abs/1 +/2 a 1 0|ii|and/2 =/2 b +/2 a 1 </2 ite/3 <=/2 0 b b neg/1 b 0
i|let/1 +/2 a 1 =/2 div/2 b 2 b|iiii|and/5 =/2 b +/2 a 1 =/2 b +/2 */2 2 c d <=/2 0 d <=/2 d 1 =/2 c b
i|let/1 3 =/2 mod/2 a b 1|iii|and/4 =/2 a +/2 */2 3 b c <=/2 0 c <=/2 c 2 =/2 c 1
i|=/2 div/2 a 0 0|i|and/1 =/2 div/2 a 0 0
ii|=/2 mod/2 a b 0|ii|and/1 =/2 mod/2 a b 0
i|let/1 +/2 a 1 =/2 b 2|i|let/1 +/2 a 1 =/2 b 2
";
