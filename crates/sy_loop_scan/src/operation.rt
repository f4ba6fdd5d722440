// Shapes as they are scanned.
use crate::guess::{Pool, Shape};
use std::alloc::Global;
use sy_terms::{Op, Sort, Want};

/// The units of a combination by a division.
pub(crate) const DIVISION: u64 = 10;
/// The units of a look-up.
pub(crate) const LOOK_UP: u64 = 20;

/// How the combinations of a shape are gone through, in the order in which shapes come.
#[derive(Clone, Copy, PartialEq, Eq)]
pub(crate) enum Way {
    /// The second part that serves a first one is looked up by its values.
    LookedUp,
    /// There is one part, and each is judged.
    Single,
    /// First and second parts that may serve are judged together.
    Judged,
    /// The same by a division.
    Divided,
    /// The same by a product, whose parts are the hardest to tell.
    Multiplied,
}

/// A shape with the bits of its operands, and how many kept terms its pools have.
#[derive(Clone, Copy)]
pub(crate) struct Operation {
    pub(crate) way: Way,
    pub(crate) operator: Op,
    pub(crate) bits: u32,
    pub(crate) first: usize,
    pub(crate) firsts: usize,
    pub(crate) second: usize,
    pub(crate) seconds: usize,
}

impl Operation {
    /// The shape at this place; `None` where there is none, or scans don't know its operator.
    pub(crate) fn at(shapes: &[Shape], pools: &[Pool], place: usize) -> Option<Operation> {
        let shape = shapes.get(place)?;
        let (first, second) = pools_of(shape.operands.as_slice())?;
        let pool = pools.get(first)?;
        let seconds = pools.get(second)?.sizes.len();
        let way = way_of(shape)?;
        Some(Operation {
            way,
            operator: shape.operator,
            bits: bits_of(pool.sort),
            first,
            firsts: pool.sizes.len(),
            second,
            seconds,
        })
    }

    /// The units of work of judging one combination.
    pub(crate) fn cost(&self) -> u64 {
        match self.way {
            Way::Divided => DIVISION,
            Way::LookedUp => LOOK_UP,
            Way::Single | Way::Judged | Way::Multiplied => 1,
        }
    }
}

/// The pools of the first and the second operand; where there is one operand, its pool is both.
fn pools_of(operands: &[u32]) -> Option<(usize, usize)> {
    let first = *operands.get(0)? as usize;
    let second = match operands.get(1) {
        Some(second) => *second as usize,
        None => first,
    };
    Some((first, second))
}

/// How many bits stand for a value of the sort.
fn bits_of(sort: Sort) -> u32 {
    match sort {
        Sort::Bool => 1,
        Sort::Int => 64,
        Sort::Bits(width) => u32::from(width),
    }
}

/// How the shape is scanned; `None` where scans don't know its operator.
fn way_of(shape: &Shape) -> Option<Way> {
    match shape.operands.len() {
        1 => way_of_single(&shape.operator),
        2 => way_of_pair(&shape.operator),
        _ => None,
    }
}

fn way_of_single(operator: &Op) -> Option<Way> {
    match operator {
        Op::Not | Op::Neg | Op::Abs | Op::BvNot | Op::BvNeg => Some(Way::Single),
        _ => None,
    }
}

fn way_of_pair(operator: &Op) -> Option<Way> {
    match operator {
        Op::Xor | Op::Add | Op::Sub => Some(Way::LookedUp),
        Op::BvXor | Op::BvXnor | Op::BvAdd | Op::BvSub => Some(Way::LookedUp),
        Op::And | Op::Or | Op::Implies => Some(Way::Judged),
        Op::BvAnd | Op::BvOr | Op::BvNand | Op::BvNor => Some(Way::Judged),
        Op::BvShl | Op::BvLshr | Op::BvAshr => Some(Way::Judged),
        Op::Equal | Op::Distinct | Op::BvComp => Some(Way::Judged),
        Op::Lt | Op::Le | Op::Gt | Op::Ge => Some(Way::Judged),
        Op::BvUlt | Op::BvUle | Op::BvUgt | Op::BvUge => Some(Way::Judged),
        Op::BvSlt | Op::BvSle | Op::BvSgt | Op::BvSge => Some(Way::Judged),
        Op::Div | Op::Mod | Op::BvUdiv | Op::BvUrem => Some(Way::Divided),
        Op::BvMul => Some(Way::Multiplied),
        _ => None,
    }
}

/// The places of the shapes that are scanned, in the order in which they are.
pub(crate) fn scanned(alloc: Global, shapes: &[Shape]) -> Result<Vec<usize>, Want> {
    let ways = [
        Way::LookedUp,
        Way::Single,
        Way::Judged,
        Way::Divided,
        Way::Multiplied,
    ];
    let mut order = Vec::new(alloc);
    for way in ways {
        for (place, shape) in shapes.iter().enumerate() {
            if way_of(shape) == Some(way) {
                order.push(place)?;
            }
        }
    }
    Ok(order)
}
