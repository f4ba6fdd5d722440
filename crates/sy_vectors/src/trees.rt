// Refutation trees of small queries, with what the checker says of each.
use crate::forms::form;
use crate::fractions::fractions;
use crate::queries::{INTEGERS, query};
use crate::rows::field;
use std::alloc::Global;
use std::process::Abort;
use sy_linear::{CheckEnd, Test, Tree, check_tree, is_countable, is_numbered};
use sy_meaning_integers::IntTheory;
use sy_terms::Want;

/// The last tree.
fn last(rt: &impl Abort, alloc: Global, stack: &mut Vec<Tree>) -> Box<Tree> {
    let tree = stack.pop().unwrap_or(Tree::Unfinished);
    Box::new(alloc, tree).expect(rt, "memory")
}

/// A split of the last tree, under whose negated test the query is known false.
fn split(rt: &impl Abort, alloc: Global, test: Test, stack: &mut Vec<Tree>) -> Tree {
    let left = last(rt, alloc, stack);
    let right = Box::new(alloc, Tree::Shown).expect(rt, "memory");
    Tree::Split(test, fractions(rt, alloc, "1/2 0"), left, right)
}

/// The cut of the last tree by a divisor and multipliers.
fn cut(rt: &impl Abort, alloc: Global, numbers: &str, stack: &mut Vec<Tree>) -> Tree {
    let (divisor, multipliers) = numbers.split_once(' ').unwrap_or((numbers, ""));
    let below = last(rt, alloc, stack);
    let multipliers = fractions(rt, alloc, multipliers);
    let point = fractions(rt, alloc, "1/2 0");
    Tree::Cut(multipliers, divisor.parse().unwrap_or(0), point, below)
}

/// The branch of the last two trees at a variable and a bound.
fn branch(rt: &impl Abort, alloc: Global, numbers: &str, stack: &mut Vec<Tree>) -> Tree {
    let (variable, bound) = numbers.split_once(' ').unwrap_or((numbers, ""));
    let right = last(rt, alloc, stack);
    let left = last(rt, alloc, stack);
    let point = fractions(rt, alloc, "1/2 0");
    let (variable, bound) = (variable.parse().unwrap_or(0), bound.parse().unwrap_or(0));
    Tree::Branch(variable, bound, point, left, right)
}

/// The tree of this text, its inner nodes after what is below them.
fn tree(rt: &impl Abort, alloc: Global, text: &str) -> Tree {
    let mut stack = Vec::new(alloc);
    for part in text.split(';') {
        let (word, rest) = part.split_once(' ').unwrap_or((part, ""));
        let tree = match word {
            "shown" => Tree::Shown,
            "farkas" => Tree::Farkas(fractions(rt, alloc, rest)),
            "cut" => cut(rt, alloc, rest, &mut stack),
            "branch" => branch(rt, alloc, rest, &mut stack),
            "truth" => split(
                rt,
                alloc,
                Test::Holds(rest.parse().unwrap_or(0)),
                &mut stack,
            ),
            "split" => split(rt, alloc, Test::AtLeast(form(rt, alloc, rest)), &mut stack),
            _ => Tree::Unfinished,
        };
        stack.push(tree).expect(rt, "memory");
    }
    stack.pop().unwrap_or(Tree::Unfinished)
}

/// The checker's answer on the row's tree of its query over an integer and a truth value.
pub fn told(rt: &impl Abort, alloc: Global, row: &str) -> Result<String, Want> {
    let query = query::<IntTheory>(rt, alloc, INTEGERS, "ib", field(row, 0));
    let tree = tree(rt, alloc, field(row, 1));
    assert!(rt; is_numbered(&query) && is_countable(&tree));
    let checked = check_tree(alloc, &query, &tree);
    drop(tree);
    drop(query);
    match checked {
        Ok(true) => String::from_str(alloc, "true"),
        Ok(false) => String::from_str(alloc, "false"),
        Err(CheckEnd::Range(at)) => format!(in alloc; "range {at}"),
        Err(CheckEnd::Want) => Err(Want {}),
    }
}

/// A body, a tree, and whether it refutes the body: contradictions, cuts, branches, splits, and no tree at all.
pub const ROWS: &str = "\
&LA0L1A|farkas 1 1;split 1:0 -1;split -1:0 0|true
&LA0L1A|farkas 1 0;split 1:0 -1;split -1:0 0|false
&LA0L1A|farkas 2 2;split 1:0 -1;split -1:0 0|true
&LA0L1A|farkas 170141183460469231731687303715884105727 170141183460469231731687303715884105727;split 1:0 -1;split -1:0 0|true
&LA0L1A|farkas 1;split 1:0 -1;split -1:0 0|false
&LA0L1A|farkas 1 1 1;split 1:0 -1;split -1:0 0|false
&LA0L1A|farkas -1 -1;split 1:0 -1;split -1:0 0|false
&L1*2AL*2A1|farkas 0 1 2;cut 2 1 0;split -2:0 1;split 2:0 -1|true
&L1*2AL*2A1|farkas 0 1 2;cut 1 1 0;split -2:0 1;split 2:0 -1|false
&L1*2AL*2A1|farkas 0 1 2;cut 0 1 0;split -2:0 1;split 2:0 -1|false
&L1*2AL*2A1|farkas 0 1 2;cut 3 1 0;split -2:0 1;split 2:0 -1|false
&L1*2AL*2A1|farkas 0 1 2;cut 2 1;split -2:0 1;split 2:0 -1|false
&L1*2AL*2A1|farkas 0 1 1;cut 2 1 0;split -2:0 1;split 2:0 -1|false
&L1*2AL*2A1|farkas 0 170141183460469231731687303715884105727 2;cut 2 1 0;split -2:0 1;split 2:0 -1|range 3
&L1*2AL*2A1|farkas 0 1 2;cut 2 170141183460469231731687303715884105727 0;split -2:0 1;split 2:0 -1|range 2
&L1*2AL*2A1|farkas 0 1 2;cut 0 170141183460469231731687303715884105727 0;split -2:0 1;split 2:0 -1|false
&L1*2AL*2A1|farkas 1 0 2;farkas 0 1 2;branch 0 0;split -2:0 1;split 2:0 -1|true
&L1*2AL*2A1|farkas 1 0 2;farkas 0 1 2;branch 0 1;split -2:0 1;split 2:0 -1|false
&L1*2AL*2A1|farkas 1 0 2;farkas 0 1 2;branch 0 -1;split -2:0 1;split 2:0 -1|false
&L1*2AL*2A1|farkas 1 0 2;farkas 0 1 2;branch 1 0;split -2:0 1;split 2:0 -1|false
&L1*2AL*2A1|farkas 1 0 2;farkas 0 1 2;branch 2 0;split -2:0 1;split 2:0 -1|false
&L+MMAB|shown;split 1:0 0|range 1
&L+MMAB|shown;split -170141183460469231731687303715884105728:0 0|range 0
&L+MMAB|shown;split 1:1 0|false
&L+MMAB|shown;split -170141183460469231731687303715884105728:2 0|false
&L+MMAB|shown;truth 1|range 1
&L+MMAB|shown;truth 0|false
&L1*2AL*2A1|shown|false
&L1*2AL*2A1|unfinished|false
";
