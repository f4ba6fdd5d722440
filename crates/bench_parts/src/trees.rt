// A query and a refutation tree that are judged: the words are the number of nodes of the query, that of facts of the
// path and the depth of the tree. The query is looked at under so many facts, which answer none of its
// tests. The tree is one of a small query: so many splits, one below the other, and below them a balanced tree of
// branches, whose leaves combine all forms above them. It prints whether the query is open and whether the tree is
// accepted.
use crate::lists::{boxed, form, list, push};
use crate::terms::{NONE, Node, add_term};
use crate::words::{WANT, number};
use std::alloc::Global;
use sy_frac::Frac;
use sy_linear::{check_tree, is_countable};
use sy_linear_known::{CheckEnd, Fact, Form, Known, Test, Tree, is_numbered, known_under};
use sy_meaning_integers::IntTheory;
use sy_query_base::Query;
use sy_seq::{Seq, Want};
use sy_terms::{Op, Sort, Term, Terms};

/// Appends `(<= least (* 1 x))`, of five nodes.
fn add_at_least(alloc: Global, least: i128, tests: &mut Terms<IntTheory>) -> Result<(), Want> {
    let nodes = [
        Node::Number(1),
        Node::Var(0),
        Node::Number(least),
        Node::Over(Op::Mul, [0, 1, NONE]),
        Node::Over(Op::Le, [2, 3, NONE]),
    ];
    add_term(alloc, Sort::Int, &nodes, 4, tests)
}

/// Appends `(<= x 0)`.
fn add_at_most_zero(alloc: Global, tests: &mut Terms<IntTheory>) -> Result<(), Want> {
    let nodes = [
        Node::Var(0),
        Node::Number(0),
        Node::Over(Op::Le, [0, 1, NONE]),
    ];
    add_term(alloc, Sort::Int, &nodes, 2, tests)
}

/// That the variable is at most 0 and at least 1, 2 and so on, in about so many nodes.
fn tests(alloc: Global, nodes: u32) -> Result<Terms<IntTheory>, Want> {
    let mut tests = Terms::new(alloc);
    add_at_most_zero(alloc, &mut tests)?;
    add_at_least(alloc, 1, &mut tests)?;
    for least in 0..nodes / 5 {
        add_at_least(alloc, i128::from(least), &mut tests)?;
    }
    Ok(tests)
}

/// Appends the query for a number that meets all of these tests.
fn add_query(alloc: Global, nodes: u32, queries: &mut Vec<Query<IntTheory>>) -> Result<(), Want> {
    let vars = list(alloc, &[Sort::Int])?;
    let tests = tests(alloc, nodes)?;
    let body = Term::App(Op::And, tests);
    push(queries, Query { vars, body })
}

/// So many facts that the variable is above a negative number.
fn facts(alloc: Global, count: u32) -> Result<Vec<Fact>, Want> {
    let mut facts = Vec::new(alloc);
    for number in 0..count {
        let form = form(alloc, &[(0, 1)], i128::from(number) + 1)?;
        push(&mut facts, Fact::AtLeast(form))?;
    }
    Ok(facts)
}

/// The multipliers 1 and 1, and 0 for the other facts.
fn multipliers(alloc: Global, count: u32) -> Result<Seq<Frac>, Want> {
    let mut list = Seq::new(alloc);
    for place in 0..count {
        let number = if place < 2 { 1 } else { 0 };
        if let Some(fraction) = Frac::new(number, 1) {
            list.push(fraction)?;
        }
    }
    Ok(list)
}

/// The first two of so many facts contradict each other.
fn conflict(alloc: Global, facts: u32) -> Result<Box<Tree>, Want> {
    let multipliers = multipliers(alloc, facts)?;
    boxed(alloc, Tree::Farkas(multipliers))
}

/// A balanced tree of branches of this depth, below so many facts.
fn branches(alloc: Global, depth: u32, above: u32) -> Result<Box<Tree>, Want> {
    if depth == 0 {
        return conflict(alloc, above);
    }
    let left = branches(alloc, depth - 1, above.saturating_add(1))?;
    match branches(alloc, depth - 1, above.saturating_add(1)) {
        Ok(right) => boxed(alloc, Tree::Branch(0, 0, Seq::new(alloc), left, right)),
        Err(want) => Err(want),
    }
}

/// What is right of a split, under so many facts: the query is false under one or two of them, and three contradict
/// each other.
fn beside(alloc: Global, facts: u32) -> Result<Box<Tree>, Want> {
    if facts < 3 {
        return boxed(alloc, Tree::Shown);
    }
    conflict(alloc, facts)
}

/// The test of the split at this place above so many facts.
fn test(alloc: Global, place: u32, facts: u32) -> Result<Form, Want> {
    if place.saturating_add(1) == facts {
        form(alloc, &[(0, 1)], -1)
    } else {
        form(alloc, &[(0, -1)], 0)
    }
}

/// The test of that split, and what is right of it.
fn test_and_right(alloc: Global, place: u32, facts: u32) -> Result<(Form, Box<Tree>), Want> {
    let test = test(alloc, place, facts)?;
    let right = beside(alloc, facts.saturating_sub(place))?;
    Ok((test, right))
}

/// The tree whose left side is this one, below so many facts.
fn split(alloc: Global, place: u32, facts: u32, left: Box<Tree>) -> Result<Box<Tree>, Want> {
    let (form, right) = test_and_right(alloc, place, facts)?;
    let tree = Tree::Split(Test::AtLeast(form), Seq::new(alloc), left, right);
    boxed(alloc, tree)
}

/// That tree below so many splits, on a variable of at least 1 and at most 0.
fn tree(alloc: Global, facts: u32, depth: u32) -> Result<Box<Tree>, Want> {
    let mut tree = branches(alloc, depth, facts)?;
    for place in 0..facts {
        tree = split(alloc, place, facts, tree)?;
    }
    Ok(tree)
}

/// Whether the query is open under the facts; `None` where it is too large.
fn is_open_under(
    alloc: Global,
    query: &Query<IntTheory>,
    path: &[Fact],
) -> Result<Option<bool>, Want> {
    if !is_numbered(query) {
        return Ok(None);
    }
    let known = known_under(alloc, query, path)?;
    let is_open = matches!(&known, Known::Undecided(_));
    drop(known);
    Ok(Some(is_open))
}

/// Whether the query is open under so many facts; `None` where it is too large.
fn is_open(alloc: Global, query: &Query<IntTheory>, count: u32) -> Result<Option<bool>, Want> {
    let path = facts(alloc, count)?;
    is_open_under(alloc, query, path.as_slice())
}

/// Whether the tree of a small query is accepted, and neither is too large.
fn is_accepted(
    alloc: Global,
    query: &Query<IntTheory>,
    count: u32,
    depth: u32,
) -> Result<bool, CheckEnd> {
    let tree = tree(alloc, count, depth)?;
    if !is_numbered(query) || !is_countable(&tree) {
        return Ok(false);
    }
    check_tree(alloc, query, &tree)
}

/// A query of so many nodes, and a small one.
fn queries(alloc: Global, nodes: u32) -> Result<Vec<Query<IntTheory>>, Want> {
    let mut queries = Vec::new(alloc);
    add_query(alloc, nodes, &mut queries)?;
    add_query(alloc, 0, &mut queries)?;
    Ok(queries)
}

/// Whether the first query is open under so many facts, and whether the tree of the second is accepted; `None` where
/// one of them is too large.
fn judged(
    alloc: Global,
    queries: &[Query<IntTheory>],
    count: u32,
    depth: u32,
) -> Result<Option<(bool, bool)>, CheckEnd> {
    let [large, small] = queries else {
        return Ok(None);
    };
    let Some(open) = is_open(alloc, large, count)? else {
        return Ok(None);
    };
    let accepted = is_accepted(alloc, small, count, depth)?;
    Ok(Some((open, accepted)))
}

/// The same of a query of so many nodes and of a small one.
fn measured(
    alloc: Global,
    nodes: u32,
    count: u32,
    depth: u32,
) -> Result<Option<(bool, bool)>, CheckEnd> {
    let queries = queries(alloc, nodes)?;
    judged(alloc, queries.as_slice(), count, depth)
}

/// Judges the query and the tree that the words ask for, and prints what was found.
pub(crate) fn run(rt: &HostRuntime, words: &[String]) -> u8 {
    let found = measured(
        rt.alloc(),
        number(words, 1),
        number(words, 2),
        number(words, 3),
    );
    match found {
        Ok(Some((open, accepted))) => {
            let _ = println!(rt; "open: {open}, accepted: {accepted}");
            0
        }
        Ok(None) => {
            let _ = println!(rt; "too large");
            0
        }
        Err(_) => WANT,
    }
}
