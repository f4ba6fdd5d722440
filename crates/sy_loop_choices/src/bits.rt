// Bits of kept terms as conditions, where there are a conjunction, shifts to the right and a kept term that is 1.
use crate::columns::Rules;
use crate::gathered::{Gathered, Made, Part, Role};
use crate::rows::{bit_points, points_of};
use crate::search::Search;
use crate::trials::Operation;
use sy_seq::Want;

/// Of how many kept terms bits are taken.
const MOST_TERMS: usize = 20_000;

/// How bits of a pool's terms are told: by a conjunction with 1 of what shifts leave.
#[derive(Drop)]
pub(crate) struct Bits {
    /// The shape of the conjunction.
    pub(crate) and: usize,
    /// The place of the kept term that is 1.
    pub(crate) one: usize,
    /// For each bit from the lowest on: the way to it, if there is one.
    ways: Vec<Option<Way>>,
}

/// The last shift on the way to a bit, and the size of all of them.
#[derive(Clone, Copy)]
pub(crate) struct Way {
    pub(crate) shape: usize,
    pub(crate) by: u32,
    size: u32,
}

impl Bits {
    /// The way to the bit, if there is one.
    pub(crate) fn way(&self, bit: u32) -> Option<Way> {
        *self.ways.get(bit as usize)?
    }
}

/// How bits of the pool's terms are told, if they can be.
pub(crate) fn bits_of<R: Rules>(
    search: &Search<R>,
    pool: u32,
    all: u128,
) -> Result<Option<Bits>, Want> {
    let (Some(and), Some(one)) = (conjunction(search, pool), unit(search, pool, all)) else {
        return Ok(None);
    };
    let mut bits = Bits {
        and,
        one,
        ways: Vec::new(search.alloc),
    };
    for bit in 0..search.task.greatest(pool).count_ones() {
        let way = least_way(search, pool, bit, &bits);
        bits.ways.push(way)?;
    }
    Ok(Some(bits))
}

/// The shape of a conjunction of terms of the pool, if there is one.
fn conjunction<R: Rules>(search: &Search<R>, pool: u32) -> Option<usize> {
    for (number, shape) in search.task.shapes.iter().enumerate() {
        if let [first, second] = shape.operands.as_slice() {
            let is_own = shape.pool == pool && *first == pool && *second == pool;
            if is_own && search.operation(number) == Some(Operation::And) {
                return Some(number);
            }
        }
    }
    None
}

/// The place of the first kept term of the pool that is 1 at all points, if there is one.
fn unit<R: Rules>(search: &Search<R>, pool: u32, all: u128) -> Option<usize> {
    for (place, column) in search.task.columns(pool).iter().enumerate() {
        if points_of(column.values.as_slice(), 1) == all {
            return Some(place);
        }
    }
    None
}

/// The least way to the bit by shifts to the right, where those to lower bits are known.
fn least_way<R: Rules>(search: &Search<R>, pool: u32, bit: u32, bits: &Bits) -> Option<Way> {
    let mut least: Option<Way> = None;
    if bit == 0 {
        least = Some(Way {
            shape: 0,
            by: 0,
            size: 0,
        });
    }
    for (number, shape) in search.task.shapes.iter().enumerate() {
        let is_own = shape.pool == pool && shape.operands.get(0) == Some(&pool);
        if let (true, Some(Operation::Right(by))) = (is_own, search.operation(number)) {
            if let Some(before) = bits.way(bit.checked_sub(by).unwrap_or(bit)) {
                let size = before.size.saturating_add(shape.size);
                let smaller = match least {
                    Some(other) => size < other.size,
                    None => true,
                };
                if smaller {
                    least = Some(Way {
                        shape: number,
                        by,
                        size,
                    });
                }
            }
        }
    }
    least
}

/// Gathers conditions of the chooser of this number, if it has one other part, which is a bit of a kept term.
pub(crate) fn gather_bits<R: Rules>(
    search: &Search<R>,
    number: usize,
    gathered: &mut Gathered,
) -> Result<(), Want> {
    let role = Role::Condition(number);
    let [pool] = search.pools(role) else {
        return Ok(());
    };
    let pool = *pool;
    let Some(bits) = bits_of(search, pool, gathered.all)? else {
        return Ok(());
    };
    let one = search.task.values(pool, bits.one);
    let zero = Vec::from_elem(search.alloc, 0, one.len())?;
    let size = search.task.added(bits.and);
    let size = size.saturating_add(search.task.size(pool, bits.one));
    let there = search.part(role, &[one], size, Made::Kept(bits.one))?;
    let here = search.part(role, &[zero.as_slice()], size, Made::Kept(bits.one))?;
    let (Some(there), Some(here)) = (there, here) else {
        return Ok(());
    };
    for place in 0..search.task.columns(pool).len().min(MOST_TERMS) {
        let size = there.size.saturating_add(search.task.size(pool, place));
        for bit in 0..64 {
            if let Some(way) = bits.way(bit) {
                let set = bit_points(search.task.values(pool, place), bit);
                gathered.offer(Part {
                    role,
                    row: (set & there.row) | ((set ^ gathered.all) & here.row),
                    size: size.saturating_add(way.size),
                    made: Made::Bit { place, bit },
                })?;
            }
        }
    }
    Ok(())
}
