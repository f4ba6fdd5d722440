// Nodes of refutation trees as items.
ghost use Rattle.std.specs.Prelude.{◌≡◌, All, IfOk};
ghost use Rattle.std.specs.Option.{option_map};
ghost use Rattle.sy_text_items.specs.Views.{item_of};
ghost use Rattle.sy_forms_items.specs.Views.{items_in};
ghost use Rattle.sy_proof.specs.Lists.{each_in, Finds};
ghost use Rattle.sy_proof.specs.Nodes as spec;
ghost use Rattle.sy_proof.specs.Nodes.{node_in, pair_in, NodeIsLowest};
ghost use Rattle.sy_proof.specs.Numbers.{fraction_in};

use crate::numbers::small;
use crate::wholes::{fractions, whole};
use crate::words::two;
use std::alloc::Global;
use sy_forms_items::{Rest, is_symbol};
use sy_frac::Frac;
use sy_linear_known::{Form, Test};
use sy_seq::{Seq, Want};
use sy_text_items::Sexp;

/// A node of a refutation tree, without its point and what is below it.
#[derive(Drop)]
pub(crate) enum Node {
    /// A test, which holds on the left and not on the right.
    Split(Test),
    /// A variable, at most the bound on the left and above it on the right.
    Branch(u32, i128),
    /// A divisor, and a multiplier for each form of the path.
    Cut(i128, Seq<Frac>),
    /// A multiplier for each form of the path.
    Farkas(Seq<Frac>),
    Shown,
    Unfinished,
}

/// The nodes that the items are, in order; `None` exactly where one is no node of a tree that is read.
pub(crate) fn read_nodes(alloc: Global, items: Rest<'_>) -> Result<Option<Vec<Node>>, Want>
    ensures { IfOk result (λ found. Finds (All NodeIsLowest) (each_in node_in (items_in items.entry))
        (option_map (λ nodes. nodes.items) found)) }
{
    let mut nodes = Vec::new(alloc);
    let mut left = items;
    while let Some((item, rest)) = left.split() {
        let Some(node) = read_node(alloc, item)? else {
            return Ok(None);
        };
        nodes.push(node)?;
        left = rest;
    }
    Ok(Some(nodes))
}

/// The node that the item is.
fn read_node(alloc: Global, item: &Sexp) -> Result<Option<Node>, Want>
    ensures { IfOk result (λ found. Finds NodeIsLowest (node_in (item_of item.now)) found) }
{
    let Sexp::List(parts, _) = item else {
        return Ok(None);
    };
    let Some((head, rest)) = Rest::all(parts).split() else {
        return Ok(None);
    };
    read_behind(alloc, head, rest)
}

/// The node that begins with this word.
fn read_behind(alloc: Global, head: &Sexp, rest: Rest<'_>) -> Result<Option<Node>, Want>
    ensures { IfOk result (λ found. Finds NodeIsLowest (spec.node_behind (item_of head.now) (items_in rest.entry))
        found) }
{
    if is_symbol(head, b"split") {
        return read_split(alloc, rest);
    }
    if is_symbol(head, b"branch") {
        return Ok(read_branch(rest));
    }
    if is_symbol(head, b"cut") {
        return read_cut(alloc, rest);
    }
    if is_symbol(head, b"farkas") {
        return read_farkas(alloc, rest);
    }
    if is_symbol(head, b"shown") {
        return Ok(read_shown(rest));
    }
    Ok(None)
}

/// Behind `split`: a test.
fn read_split(alloc: Global, rest: Rest<'_>) -> Result<Option<Node>, Want>
    ensures { IfOk result (λ found. Finds NodeIsLowest (spec.split_in (items_in rest.entry)) found) }
{
    let Some((item, rest)) = rest.split() else {
        return Ok(None);
    };
    if !rest.is_empty() {
        return Ok(None);
    }
    match read_test(alloc, item)? {
        Some(test) => Ok(Some(Node::Split(test))),
        None => Ok(None),
    }
}

/// Behind `branch`: a variable and a bound.
fn read_branch(rest: Rest<'_>) -> Option<Node>
    ensures { Finds NodeIsLowest (spec.branch_in (items_in rest.entry)) result }
{
    let Some((variable, bound)) = two(rest) else {
        return None;
    };
    let variable = small(variable)?;
    let bound = whole(bound)?;
    Some(Node::Branch(variable, bound))
}

/// Behind `cut`: a divisor and multipliers.
fn read_cut(alloc: Global, rest: Rest<'_>) -> Result<Option<Node>, Want>
    ensures { IfOk result (λ found. Finds NodeIsLowest (spec.cut_in (items_in rest.entry)) found) }
{
    let Some((divisor, rest)) = rest.split() else {
        return Ok(None);
    };
    let Some(divisor) = whole(divisor) else {
        return Ok(None);
    };
    match fractions(alloc, rest)? {
        Some(multipliers) => Ok(Some(Node::Cut(divisor, multipliers))),
        None => Ok(None),
    }
}

/// Behind `farkas`: multipliers.
fn read_farkas(alloc: Global, rest: Rest<'_>) -> Result<Option<Node>, Want>
    ensures { IfOk result (λ found. Finds NodeIsLowest
        (option_map Node.Farkas (each_in fraction_in (items_in rest.entry))) found) }
{
    match fractions(alloc, rest)? {
        Some(multipliers) => Ok(Some(Node::Farkas(multipliers))),
        None => Ok(None),
    }
}

/// Behind `shown`: nothing.
fn read_shown(rest: Rest<'_>) -> Option<Node>
    ensures { Finds NodeIsLowest (spec.shown_in (items_in rest.entry)) result }
{
    if rest.is_empty() {
        Some(Node::Shown)
    } else {
        None
    }
}

/// The test that the item is.
fn read_test(alloc: Global, item: &Sexp) -> Result<Option<Test>, Want>
    ensures { IfOk result (λ found. found ≡ spec.test_in (item_of item.now)) }
{
    let Sexp::List(parts, _) = item else {
        return Ok(None);
    };
    let Some((head, rest)) = Rest::all(parts).split() else {
        return Ok(None);
    };
    if is_symbol(head, b"atleast") {
        return read_form(alloc, rest);
    }
    if is_symbol(head, b"holds") {
        return Ok(read_holds(rest));
    }
    Ok(None)
}

/// Behind `atleast`: the constant, and a pair for each variable.
fn read_form(alloc: Global, rest: Rest<'_>) -> Result<Option<Test>, Want>
    ensures { IfOk result (λ found. found ≡ spec.form_in (items_in rest.entry)) }
{
    let Some((constant, rest)) = rest.split() else {
        return Ok(None);
    };
    let Some(constant) = whole(constant) else {
        return Ok(None);
    };
    match read_pairs(alloc, rest)? {
        Some(coefs) => Ok(Some(Test::AtLeast(Form { coefs, constant }))),
        None => Ok(None),
    }
}

/// Behind `holds`: a variable.
fn read_holds(rest: Rest<'_>) -> Option<Test>
    ensures { result ≡ spec.holds_in (items_in rest.entry) }
{
    let (variable, rest) = rest.split()?;
    if !rest.is_empty() {
        return None;
    }
    let variable = small(variable)?;
    Some(Test::Holds(variable))
}

/// The variables and their coefficients.
fn read_pairs(alloc: Global, items: Rest<'_>) -> Result<Option<Seq<(u32, i128)>>, Want>
    ensures { IfOk result (λ found. found ≡ each_in pair_in (items_in items.entry)) }
{
    let mut pairs = Seq::new(alloc);
    let mut left = items;
    while let Some((item, rest)) = left.split() {
        let Some(pair) = read_pair(item) else {
            return Ok(None);
        };
        pairs.push(pair)?;
        left = rest;
    }
    Ok(Some(pairs))
}

/// The variable and its coefficient that the item is.
fn read_pair(item: &Sexp) -> Option<(u32, i128)>
    ensures { result ≡ pair_in (item_of item.now) }
{
    match item {
        Sexp::Atom(_, _) => None,
        Sexp::List(parts, _) => pair_of(Rest::all(parts)),
    }
}

/// The variable and its coefficient that the two items are.
fn pair_of(items: Rest<'_>) -> Option<(u32, i128)>
    ensures { result ≡ spec.pair_of (items_in items.entry) }
{
    let Some((variable, number)) = two(items) else {
        return None;
    };
    let variable = small(variable)?;
    let number = whole(number)?;
    Some((variable, number))
}
