// Bodies of known operations over a pair of kept terms.
ghost use Rattle.std.specs.Prelude.{IfOk, IfSome};
ghost use Rattle.sy_loop_choices.specs.Plans.{IsPlan};

use crate::columns::{Column, Rules, Task};
use crate::layers::{DEPTH, Layer, MOST_SIZE, layers};
use crate::pairs::{Kept, values_at};
use crate::plan::{Plan, is_plan};
use crate::search::Search;
use crate::wanted::Target;
use std::alloc::Global;
use std::collections::HashSet;
use sy_seq::Want;

/// How much is looked up at most.
const WORK: u64 = 200_000_000;
/// What the trial of a pair at all points counts for: as many look-ups.
const TRIAL: u64 = 10_000;
/// How many kept terms are judged in pairs.
const MOST_JUDGED: usize = 600;
/// Among how many points, all over them, those are sought at which kept terms differ most.
const SEEN_POINTS: usize = 8;
/// At how many points pairs are looked up.
const POINTS: usize = 3;

/// Two kept terms that a shape joins, inside of the operations of a layer.
#[derive(Drop)]
struct Found {
    layer: usize,
    shape: usize,
    first: usize,
    second: usize,
}

/// A plan of a body with the wanted value at each point: up to three operations that can be turned round, over two
/// kept terms that an operation joins. `None` where none was found within the stated work. `Want` comes where memory
/// runs out, and nowhere else.
pub fn below<'a, R: Rules>(
    alloc: Global,
    rules: &'a R,
    task: &'a Task,
) -> Result<Option<Plan>, Want>
    ensures { IfOk result (λ found. IfSome found (IsPlan task.now.pools.items task.now.shapes.items)) }
{
    let search = Search::new(alloc, rules, task)?;
    let points = telling_points(alloc, task)?;
    let mut kept = Kept::new(alloc, task, points.as_slice(), MOST_JUDGED, WORK)?;
    let wanted = values_at(alloc, task.wanted.as_slice(), points.as_slice())?;
    let target = Target::new(alloc, wanted.as_slice(), task.greatest(0))?;
    let layers = layers(&search, &kept, target)?;
    let Some(found) = found_in(&search, &mut kept, layers.as_slice())? else {
        return Ok(None);
    };
    let plan = plan_of(&search, layers.as_slice(), &found)?;
    let whole = is_plan(task.pools.as_slice(), task.shapes.as_slice(), &plan);
    if whole { Ok(Some(plan)) } else { Ok(None) }
}

/// The points, at most three, at which kept terms have the most different values: the first one has the most.
fn telling_points(alloc: Global, task: &Task) -> Result<Vec<usize>, Want> {
    let mut points = Vec::new(alloc);
    for _ in 0..POINTS {
        let mut best = None;
        let mut most = 0usize;
        for number in 0..SEEN_POINTS {
            let point = task.wanted.len().saturating_mul(number) / SEEN_POINTS;
            let count = different(alloc, task.columns(0), point)?;
            if count > most && !points.contains(&point) {
                best = Some(point);
                most = count;
            }
        }
        if let Some(point) = best {
            points.push(point)?;
        }
    }
    Ok(points)
}

/// How many different values the kept terms have at the point.
fn different(alloc: Global, columns: &[Column], point: usize) -> Result<usize, Want> {
    let mut seen: HashSet<u64> = HashSet::new(alloc);
    for column in columns {
        let value = column.values.get(point).copied().unwrap_or(0);
        seen.insert(value)?;
    }
    Ok(seen.len())
}

/// The first pair that serves, in the smallest layers first.
fn found_in<R: Rules>(
    search: &Search<R>,
    kept: &mut Kept,
    layers: &[Layer],
) -> Result<Option<Found>, Want> {
    for size in 0..=MOST_SIZE {
        for (number, layer) in layers.iter().enumerate() {
            if layer.size == size && kept.work > 0 {
                if let Some(found) = found_in_layer(search, kept, layers, number)? {
                    return Ok(Some(found));
                }
            }
        }
    }
    Ok(None)
}

/// The first pair that serves in the layer of this number.
fn found_in_layer<R: Rules>(
    search: &Search<R>,
    kept: &mut Kept,
    layers: &[Layer],
    number: usize,
) -> Result<Option<Found>, Want> {
    let Some(layer) = layers.get(number) else {
        return Ok(None);
    };
    for shape in 0..search.task.shapes.len() {
        if let Some(operation) = search.joint(shape) {
            for (first, second) in kept.pairs(operation, &layer.target)? {
                let found = Found {
                    layer: number,
                    shape,
                    first,
                    second,
                };
                kept.work = kept.work.saturating_sub(TRIAL);
                if is_whole(search, layers, &found)? {
                    return Ok(Some(found));
                }
            }
        }
    }
    Ok(None)
}

/// Whether the pair inside of its layer's operations has the wanted values at all points.
fn is_whole<R: Rules>(search: &Search<R>, layers: &[Layer], found: &Found) -> Result<bool, Want> {
    let Some(mut values) = search.rule_values(found.shape, found.first, found.second)? else {
        return Ok(false);
    };
    let greatest = search.task.greatest(0);
    let mut number = found.layer;
    for _ in 0..DEPTH {
        let Some(layer) = layers.get(number) else {
            return Ok(false);
        };
        if let Some(step) = layer.step {
            let other = search.task.values(0, step.kept.unwrap_or(0));
            let inner = values.as_slice();
            let (first, second) = if step.kept.is_none() || !step.kept_first {
                (inner, other)
            } else {
                (other, inner)
            };
            values = step
                .operation
                .values(search.alloc, greatest, first, second)?;
        }
        number = layer.outer;
    }
    Ok(values.as_slice() == search.task.wanted.as_slice())
}

/// The plan of the pair inside of its layer's operations.
fn plan_of<R: Rules>(search: &Search<R>, layers: &[Layer], found: &Found) -> Result<Plan, Want> {
    let mut plan = Plan {
        nodes: Vec::new(search.alloc),
        choices: 0,
        size: search.rule_size(found.shape, found.first, found.second),
    };
    let first = plan.push_kept(0, found.first)?;
    let second = plan.push_kept(0, found.second)?;
    let parts = Vec::from_array(search.alloc, [first, second])?;
    let mut inner = plan.push_rule(found.shape, parts)?;
    let mut number = found.layer;
    if let Some(layer) = layers.get(number) {
        plan.size = plan.size.saturating_add(layer.size);
    }
    for _ in 0..DEPTH {
        let Some(layer) = layers.get(number) else {
            return Ok(plan);
        };
        if let Some(step) = layer.step {
            let mut parts = Vec::new(search.alloc);
            if let Some(place) = step.kept {
                parts.push(plan.push_kept(0, place)?)?;
            }
            let at = if step.kept_first { parts.len() } else { 0 };
            parts.insert(at, inner)?;
            inner = plan.push_rule(step.shape, parts)?;
        }
        number = layer.outer;
    }
    Ok(plan)
}
