// Trees as plans.
use crate::bits::bits_of;
use crate::columns::Rules;
use crate::gathered::{Gathered, Made, Part, Role};
use crate::plan::{Node, Plan};
use crate::search::Search;
use crate::tree::{Branch, Tree};
use sy_seq::Want;

/// The plan of the tree.
pub(crate) fn written<R: Rules>(
    search: &Search<R>,
    gathered: &Gathered,
    tree: &Tree,
) -> Result<Plan, Want> {
    let mut plan = Plan {
        nodes: Vec::new(search.alloc),
        choices: tree.choices,
        size: tree.size,
    };
    let count = tree.branches.len();
    let mut numbers = Vec::from_elem(search.alloc, 0, count)?;
    for place in (0..count).rev() {
        if let Some(branch) = tree.branches.get(place) {
            let number = push_branch(search, gathered, branch, numbers.as_slice(), &mut plan)?;
            if let Some(slot) = numbers.get_mut(place) {
                *slot = number;
            }
        }
    }
    Ok(plan)
}

/// Appends the branch, where the steps of those that it leads to have these numbers. Its step's number.
fn push_branch<R: Rules>(
    search: &Search<R>,
    gathered: &Gathered,
    branch: &Branch,
    numbers: &[usize],
    plan: &mut Plan,
) -> Result<usize, Want> {
    let (part, yes, no) = match branch {
        Branch::Leaf(leaf) => (gathered.leaves.list.get(*leaf), 0, 0),
        Branch::Test { condition, yes, no } => {
            (gathered.conditions.list.get(*condition), *yes, *no)
        }
    };
    let Some(part) = part else {
        return Ok(0);
    };
    let others = push_part(search, gathered.all, part, plan)?;
    let Role::Condition(chooser) = part.role else {
        return Ok(others.get(0).copied().unwrap_or(0));
    };
    let Some(chooser) = search.choosers.get(chooser) else {
        return Ok(0);
    };
    let yes = numbers.get(yes).copied().unwrap_or(0);
    let no = numbers.get(no).copied().unwrap_or(0);
    let parts = chooser.placed(search.alloc, yes, no, others.as_slice())?;
    plan.push_rule(chooser.shape, parts)
}

/// Appends what the part is made of. The numbers of its last steps.
fn push_part<R: Rules>(
    search: &Search<R>,
    all: u128,
    part: &Part,
    plan: &mut Plan,
) -> Result<Vec<usize>, Want> {
    let mut numbers = Vec::new(search.alloc);
    let pools = search.pools(part.role);
    match part.made {
        Made::Kept(number) => {
            let places = search.places(pools, number)?;
            for (pool, place) in pools.iter().zip(places.as_slice()) {
                numbers.push(plan.push_kept(*pool, *place)?)?;
            }
        }
        Made::Rule {
            shape,
            first,
            second,
        } => {
            let mut parts = Vec::new(search.alloc);
            let places = [first, second];
            for (pool, place) in search.task.operands(shape).iter().zip(places.as_slice()) {
                parts.push(plan.push_kept(*pool, *place)?)?;
            }
            numbers.push(plan.push_rule(shape, parts)?)?;
        }
        Made::Bit { place, bit } => {
            let pool = pools.get(0).copied().unwrap_or(0);
            numbers.push(push_bit(search, all, pool, place, bit, plan)?)?;
        }
    }
    Ok(numbers)
}

/// Appends the bit of the kept term. The last step's number.
fn push_bit<R: Rules>(
    search: &Search<R>,
    all: u128,
    pool: u32,
    place: usize,
    bit: u32,
    plan: &mut Plan,
) -> Result<usize, Want> {
    let Some(bits) = bits_of(search, pool, all)? else {
        return Ok(0);
    };
    let mut number = plan.push_kept(pool, place)?;
    let mut left = bit;
    for _ in 0..bit {
        if let (true, Some(way)) = (left > 0, bits.way(left)) {
            let mut parts = Vec::new(search.alloc);
            parts.push(number)?;
            number = plan.push_rule(way.shape, parts)?;
            left = left.saturating_sub(way.by);
        }
    }
    let mut parts = Vec::new(search.alloc);
    parts.push(plan.push_kept(pool, bits.one)?)?;
    parts.push(number)?;
    plan.push_rule(bits.and, parts)
}

impl Plan {
    /// Appends a kept term. Its step's number.
    pub(crate) fn push_kept(&mut self, pool: u32, place: usize) -> Result<usize, Want> {
        let number = self.nodes.len();
        self.nodes.push(Node::Kept { pool, place })?;
        Ok(number)
    }

    /// Appends a rule over steps of these numbers. Its step's number.
    pub(crate) fn push_rule(&mut self, shape: usize, parts: Vec<usize>) -> Result<usize, Want> {
        let number = self.nodes.len();
        self.nodes.push(Node::Rule { shape, parts })?;
        Ok(number)
    }
}
