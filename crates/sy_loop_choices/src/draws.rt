// Leaves of two kept terms that have the wanted values at two points, which are drawn.
use crate::columns::Rules;
use crate::gathered::{Gathered, Role};
use crate::pairs::{Kept, values_at};
use crate::rows::MOST_POINTS;
use crate::search::Search;
use crate::wanted::Target;
use sy_seq::Want;

/// How often two points are drawn in a round.
const DRAWS: usize = 6;
/// How many kept terms are judged in pairs.
const MOST_JUDGED: usize = 2_000;
/// How much is looked up at most for one draw.
const WORK: u64 = 100_000_000;

/// Random numbers, the same each time.
#[derive(Drop)]
pub(crate) struct Draws(u64);

impl Draws {
    /// From the first one on.
    pub(crate) fn new() -> Draws {
        Draws(88172645463325252)
    }

    /// A point of the set, if there is one.
    fn point(&mut self, set: u128) -> Option<usize> {
        self.0 ^= self.0 << 13;
        self.0 ^= self.0 >> 7;
        self.0 ^= self.0 << 17;
        let begin = (self.0 % 128) as usize;
        for number in begin..begin.saturating_add(MOST_POINTS) {
            let point = number % MOST_POINTS;
            if set >> point & 1 == 1 {
                return Some(point);
            }
        }
        None
    }
}

/// Gathers pairs that serve at points which are drawn, mostly from those that no leaf serves.
pub(crate) fn gather_pairs<R: Rules>(
    search: &Search<R>,
    draws: &mut Draws,
    gathered: &mut Gathered,
) -> Result<(), Want> {
    let unserved = gathered.unserved();
    let set = if unserved == 0 {
        gathered.all
    } else {
        unserved
    };
    for _ in 0..DRAWS {
        gather_drawn(search, draws, set, gathered)?;
    }
    if unserved != 0 {
        gather_drawn(search, draws, gathered.all, gathered)?;
    }
    Ok(())
}

/// Draws two points of the set, and gathers pairs that have the wanted values there.
fn gather_drawn<R: Rules>(
    search: &Search<R>,
    draws: &mut Draws,
    set: u128,
    gathered: &mut Gathered,
) -> Result<(), Want> {
    let (Some(one), Some(two)) = (draws.point(set), draws.point(set)) else {
        return Ok(());
    };
    let points = [one, two];
    let wanted = values_at(search.alloc, search.task.wanted.as_slice(), &points)?;
    let target = Target::new(search.alloc, wanted.as_slice(), search.task.greatest(0))?;
    let mut kept = Kept::new(search.alloc, search.task, &points, MOST_JUDGED, WORK)?;
    for shape in 0..search.task.shapes.len() {
        if let Some(operation) = search.joint(shape) {
            for pair in kept.pairs(operation, &target)? {
                search.gather_rule(Role::Leaf, shape, pair, gathered)?;
            }
        }
    }
    Ok(())
}
