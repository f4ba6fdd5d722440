// Terms that look random.
use crate::terms::{NONE, Node, add_term};
use crate::words::next;
use std::alloc::Global;
use sy_terms::{Op, Sort, Terms, Theory, Want};

/// What terms are made of: values of one sort, operators on two of them, and a comparison.
#[derive(Drop)]
pub(crate) struct Kit {
    pub sort: Sort,
    pub binary: &'static [Op],
    pub less: Op,
}

/// A variable or a small number.
fn leaf(pick: u64) -> Node {
    if pick % 4 < 3 {
        Node::Var((pick % 4) as u32)
    } else {
        Node::Number(i128::from(pick / 4 % 100))
    }
}

/// The operator on two values that a random number picks.
fn operator_of(kit: &Kit, pick: u64) -> Op {
    let mut operator = Op::Equal;
    for (place, binary) in kit.binary.iter().enumerate() {
        if pick / 8 % 7 >= place as u64 {
            operator = *binary;
        }
    }
    operator
}

/// Appends the node; its place.
fn add(nodes: &mut Vec<Node>, node: Node) -> Result<usize, Want> {
    let place = nodes.len();
    nodes.push(node)?;
    Ok(place)
}

/// Appends a node over the last two of the level, or over the last three: the third where the last is less than the one
/// before it, and else the first variable, which is the first node.
fn add_over(
    kit: &Kit,
    pick: u64,
    level: &mut Vec<usize>,
    nodes: &mut Vec<Node>,
) -> Result<usize, Want> {
    let is_choice = pick % 8 == 0 && level.len() > 2;
    let operator = if is_choice {
        kit.less
    } else {
        operator_of(kit, pick)
    };
    let last = level.pop().unwrap_or(NONE);
    let before = level.pop().unwrap_or(NONE);
    let pair = add(nodes, Node::Over(operator, [last, before, NONE]))?;
    if !is_choice {
        return Ok(pair);
    }
    let third = level.pop().unwrap_or(NONE);
    add(nodes, Node::Over(Op::Ite, [pair, third, 0]))
}

/// Nodes over those of the level, from its end to its beginning.
fn above(
    alloc: Global,
    kit: &Kit,
    mut level: Vec<usize>,
    nodes: &mut Vec<Node>,
    state: &mut u64,
) -> Result<Vec<usize>, Want> {
    let mut above = Vec::new(alloc);
    for _ in 0..level.len() {
        if level.len() < 2 {
            break;
        }
        *state = next(*state);
        above.push(add_over(kit, *state >> 33, &mut level, nodes)?)?;
    }
    if let Some(last) = level.pop() {
        above.push(last)?;
    }
    Ok(above)
}

/// Appends the nodes of a random term with so many leaves and more; the place of its top node.
fn add_nodes(alloc: Global, kit: &Kit, leaves: u32, nodes: &mut Vec<Node>) -> Result<usize, Want> {
    let mut state = 1u64;
    let mut level = Vec::new(alloc);
    for _ in 0..leaves {
        state = next(state);
        level.push(add(nodes, leaf(state >> 33))?)?;
    }
    for _ in 0..32 {
        level = above(alloc, kit, level, nodes, &mut state)?;
    }
    Ok(level.pop().unwrap_or(NONE))
}

/// Appends a random term with so many leaves and more, or nothing where it would have none.
pub(crate) fn add_random_term<T: Theory>(
    alloc: Global,
    kit: &Kit,
    leaves: u32,
    terms: &mut Terms<T>,
) -> Result<(), Want> {
    let mut nodes = Vec::new(alloc);
    nodes.push(Node::Var(0))?;
    let top = add_nodes(alloc, kit, leaves, &mut nodes)?;
    add_term(alloc, kit.sort, nodes.as_slice(), top, terms)
}
