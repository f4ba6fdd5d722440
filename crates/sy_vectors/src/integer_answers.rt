// What the solver of queries over integers answers to those that no file asks, or where no step may be taken.
use crate::queries::{INTEGERS, LIMITS, query};
use crate::rows::{field, number};
use std::alloc::Global;
use std::process::Abort;
use sy_intsolve::{IntDecide, fits};
use sy_linear::{Tree, check_tree, is_countable, is_numbered};
use sy_lower::lower;
use sy_meaning_integers::IntTheory;
use sy_query::{Decide, FailName, Limits, Query, Verdict};
use sy_terms::Value;

/// Whether the values are these numbers, 1 for true, or any where `some` is told.
fn are_values(values: &[Value<i128>], told: &str) -> bool {
    let mut numbers = told.split_whitespace();
    let mut are_told = true;
    for value in values {
        let number = match value {
            Value::Truth(truth) => i128::from(*truth),
            Value::Num(number) => *number,
        };
        are_told &= numbers.next().unwrap_or("").parse() == Ok(number);
    }
    (told == "some") | (are_told & numbers.next().is_none())
}

/// Whether the tree refutes the query.
fn is_refuted(rt: &impl Abort, alloc: Global, query: &Query<IntTheory>, tree: &Tree) -> bool {
    assert!(rt; is_numbered(query) && is_countable(tree));
    matches!(check_tree(alloc, query, tree), Ok(true))
}

/// Whether the query is answered as the row tells within its limits.
fn answers(rt: &impl Abort, alloc: Global, query: &Query<IntTheory>, row: &str) -> bool {
    let told = field(row, 4);
    if !fits(alloc, query).expect(rt, told) {
        return told == "unfit";
    }
    let limits = Limits {
        nodes: number(row, 2),
        pivots: number(row, 3),
        ..LIMITS
    };
    let verdict = IntDecide::new().decide(alloc, query, &limits);
    let verdict = verdict.expect(rt, told);
    let is_told = match &verdict {
        Verdict::Model(values) => are_values(values.as_slice(), told),
        Verdict::Never(tree) => {
            let lowered = lower(alloc, query).expect(rt, told);
            told == "never" && is_refuted(rt, alloc, &lowered, tree)
        }
        Verdict::Spent(spent) => told == "range" && IntDecide::name_of(spent) == FailName::Range,
    };
    drop(verdict);
    is_told
}

/// Whether the row is right.
pub fn is_right(rt: &impl Abort, alloc: Global, row: &str) -> bool {
    let query = query::<IntTheory>(rt, alloc, INTEGERS, field(row, 0), field(row, 1));
    let is_right = answers(rt, alloc, &query, row);
    drop(query);
    is_right
}

/// The variables' sorts, the body, how many inner nodes and steps at a leaf may be, and the answer: `unfit` for what
/// isn't a query; the numbers of a model, or `some`, by assignments that are tried before any search; `never`, by a
/// tree of the lowered query that the checker accepts, where coefficients are sums; and `range` for what isn't linear.
/// Then the same of divisions, remainders and absolute values: a model that only a search finds has no values of the
/// variables that were made.
pub const ROWS: &str = "\
i|A|9|9|unfit
b|=+A11|9|9|unfit
i|=AB|9|9|unfit
ii|<AB|0|0|some
i|=A5|0|0|5
i|&>A5<A7|0|0|6
iii|=++*+66A*+3+99B*++3+99+66C7|4|99|never
ii|=**AB23|9|9|range
i|=%A35|9|99|never
i|<%A40|9|99|never
i|<$A0|9|99|never
i|!=+*4/A4%A4A|9|99|never
i|!=//A23/A6|40|999|never
ii|>-$AB+$A$B|40|999|never
i|&=%A73=/A75|40|999|38
i|=%A53|0|0|some
i|=/AA2|9|9|range
";
