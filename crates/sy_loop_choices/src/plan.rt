// Plans of bodies.
ghost use Rattle.std.specs.Prelude.{◌<◌, All, IsTrue};
ghost use Rattle.sy_loop_choices.specs.Plans.{IsPlan, IsStep};

use crate::columns::{Pool, Shape};

/// A step of a plan.
#[derive(Drop)]
pub enum Node {
    /// The kept term of this place in the pool.
    Kept { pool: u32, place: usize },
    /// The shape's rule over what the steps of these numbers give, from left to right. They stand earlier in the plan.
    Rule { shape: usize, parts: Vec<usize> },
}

/// Steps, of which the last one gives the body; how often that chooses, and its size.
#[derive(Drop)]
pub struct Plan {
    pub nodes: Vec<Node>,
    pub choices: u32,
    pub size: u32,
}

/// Whether the steps are of these pools and shapes, each over earlier ones, and there is one.
pub(crate) fn is_plan(pools: &[Pool], shapes: &[Shape], plan: &Plan) -> bool
    ensures { IsTrue result → IsPlan pools.now shapes.now plan.now }
{
    let nodes = plan.nodes.as_slice();
    for number in 0..nodes.len() {
        if !is_step(pools, shapes, number, &nodes[number]) {
            return false;
        }
    }
    !nodes.is_empty()
}

/// Whether the step is of these pools and shapes, over earlier ones than this.
fn is_step(pools: &[Pool], shapes: &[Shape], number: usize, node: &Node) -> bool
    ensures { IsTrue result → IsStep pools.now shapes.now number node.now }
{
    match node {
        Node::Kept { pool, place } => match pools.get(*pool as usize) {
            Some(pool) => *place < pool.columns.len(),
            None => false,
        },
        Node::Rule { shape, parts } => match shapes.get(*shape) {
            Some(shape) => {
                parts.len() == shape.operands.len() && are_before(parts.as_slice(), number)
            }
            None => false,
        },
    }
}

/// Whether all parts are below the number.
fn are_before(parts: &[usize], number: usize) -> bool
    ensures { IsTrue result → All (λ part. part < number) parts.now }
{
    parts.iter().all(|part| *part < number)
}
