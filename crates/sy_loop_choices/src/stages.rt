// Trees of choices, over more and more parts.
ghost use Rattle.std.specs.Prelude.{IfOk, IfSome};
ghost use Rattle.sy_loop_choices.specs.Plans.{IsPlan};

use crate::bits::gather_bits;
use crate::columns::{Rules, Task};
use crate::draws::{Draws, gather_pairs};
use crate::further::gather_further;
use crate::gathered::{Gathered, Role};
use crate::plan::{Plan, is_plan};
use crate::rows::all_points;
use crate::search::Search;
use crate::tree::{Tree, tree_of};
use crate::writer::written;
use std::alloc::Global;
use sy_seq::Want;

/// How many combinations of kept terms by rules are gone through at most.
const MOST_COMBINATIONS: usize = 1_000_000;
/// A tree of so few choices is taken at once.
const FEW_CHOICES: u32 = 8;

/// What is gathered, one after the other.
#[derive(Clone, Copy)]
enum Stage {
    KeptLeaves,
    KeptConditions,
    FurtherConditions,
    Bits,
    FurtherLeaves,
    Pairs,
}

/// All of it in order. Points are drawn for pairs again and again.
const STAGES: [Stage; 9] = [
    Stage::KeptLeaves,
    Stage::KeptConditions,
    Stage::FurtherConditions,
    Stage::Bits,
    Stage::FurtherLeaves,
    Stage::Pairs,
    Stage::Pairs,
    Stage::Pairs,
    Stage::Pairs,
];

/// A plan of a body with the wanted value at each point: the first one of few choices, or the smallest of all that were
/// made. Few are an eighth of the points, at least one and at most eight. `None` where no rule chooses, or no tree
/// serves all points. `Want` comes where memory runs out, and nowhere else.
pub fn choose<'a, R: Rules>(
    alloc: Global,
    rules: &'a R,
    task: &'a Task,
) -> Result<Option<Plan>, Want>
    ensures { IfOk result (λ found. IfSome found (IsPlan task.now.pools.items task.now.shapes.items)) }
{
    let search = Search::new(alloc, rules, task)?;
    if search.choosers.is_empty() || task.wanted.is_empty() {
        return Ok(None);
    }
    let mut gathered = Gathered::new(alloc, all_points(task.wanted.len()));
    let Some(tree) = found_tree(&search, &mut gathered)? else {
        return Ok(None);
    };
    let plan = written(&search, &gathered, &tree)?;
    let whole = is_plan(task.pools.as_slice(), task.shapes.as_slice(), &plan);
    if whole { Ok(Some(plan)) } else { Ok(None) }
}

/// The first tree that chooses few times, or the smallest one of all stages.
fn found_tree<R: Rules>(search: &Search<R>, gathered: &mut Gathered) -> Result<Option<Tree>, Want> {
    let few = few_choices(search.task.wanted.len());
    let mut draws = Draws::new();
    let mut smallest = None;
    for stage in STAGES {
        gather(search, stage, &mut draws, gathered)?;
        if let Some(tree) = tree_of(search.alloc, gathered)? {
            if tree.choices <= few {
                return Ok(Some(tree));
            }
            smallest = Some(smaller(smallest, tree));
        }
    }
    Ok(smallest)
}

/// Gathers what is of the stage.
fn gather<R: Rules>(
    search: &Search<R>,
    stage: Stage,
    draws: &mut Draws,
    gathered: &mut Gathered,
) -> Result<(), Want> {
    let choosers = search.choosers.len();
    let most = MOST_COMBINATIONS.checked_div(choosers).unwrap_or(0);
    match stage {
        Stage::KeptLeaves => search.gather_kept(Role::Leaf, gathered)?,
        Stage::KeptConditions => {
            for number in 0..choosers {
                search.gather_kept(Role::Condition(number), gathered)?;
            }
        }
        Stage::FurtherConditions => {
            for number in 0..choosers {
                gather_further(search, Role::Condition(number), most, gathered)?;
            }
        }
        Stage::Bits => {
            for number in 0..choosers {
                gather_bits(search, number, gathered)?;
            }
        }
        Stage::FurtherLeaves => {
            gather_further(search, Role::Leaf, MOST_COMBINATIONS, gathered)?;
        }
        Stage::Pairs => gather_pairs(search, draws, gathered)?,
    }
    Ok(())
}

/// The smaller one of the trees, the new one if there was none.
fn smaller(smallest: Option<Tree>, tree: Tree) -> Tree {
    match smallest {
        Some(other) if other.size <= tree.size => other,
        _ => tree,
    }
}

/// How many choices are few over so many points.
fn few_choices(points: usize) -> u32 {
    let most = u32::try_from(points / 8).unwrap_or(FEW_CHOICES);
    FEW_CHOICES.min(most.max(1))
}
