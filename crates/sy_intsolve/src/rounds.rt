// The simplex method over few facts of a path, and one more as long as a fact isn't met.
ghost use Rattle.std.specs.Prelude.{◌<◌, ◌^◌, [], List, length, IfOk};
ghost use Rattle.sy_terms.specs.declared.sort.Sort.{Sort};
ghost use Rattle.sy_intsolve_paths_laws.specs.Paths.{IsPath};
ghost use Rattle.sy_intsolve_cuts.specs.Points.{IsPointOf};
ghost use Rattle.sy_intsolve.specs.Telling.{IsNear, IsToldBy};

use crate::conflict::contradiction;
use crate::measures::worst;
use crate::subset::{are_met, with_fact};
use std::alloc::Global;
use sy_frac::Frac;
use sy_intsolve_cuts::corner;
use sy_linear_known::Fact;
use sy_seq::{Seq, Want};
use sy_simplex::{Ended, Feasible};
use sy_terms::Sort;

/// How many facts are chosen at most.
const MOST: u32 = 32;

/// What few facts of a path tell of it.
#[derive(Drop)]
pub(crate) enum Near {
    /// A point of the path.
    Point(Seq<Frac>),
    /// A multiplier for each form of the path, none of them negative, that combine the forms to a negative constant.
    Conflict(Seq<Frac>),
    /// Nothing.
    Unknown,
}

/// What comes of the chosen facts.
#[derive(Drop)]
pub(crate) enum Round {
    /// The fact at this place isn't met at their corner.
    On(usize),
    /// This is told.
    Over(Near),
}

/// What a corner of the chosen facts tells.
fn by_corner(alloc: Global, facts: &[Fact], point: Seq<Frac>) -> Result<Round, Want>
    ensures { (vars : List Sort) → IsPointOf vars [] point → IfOk result (IsToldBy vars facts.now) }
{
    let here = point.as_slice();
    if let Some(place) = worst(alloc, facts, here)? {
        return Ok(Round::On(place));
    }
    if !are_met(facts, here) {
        return Ok(Round::Over(Near::Unknown));
    }
    Ok(Round::Over(Near::Point(point)))
}

/// What the chosen facts' multipliers tell.
fn by_multipliers(
    alloc: Global,
    facts: &[Fact],
    places: &[usize],
    multipliers: &[Frac],
) -> Result<Round, Want>
    ensures { (vars : List Sort) → IfOk result (IsToldBy vars facts.now) }
{
    match contradiction(alloc, facts, places, multipliers)? {
        Some(all) => Ok(Round::Over(Near::Conflict(all))),
        None => Ok(Round::Over(Near::Unknown)),
    }
}

/// What the chosen facts, which stand at these places, tell.
fn by_chosen(
    alloc: Global,
    vars: &[Sort],
    facts: &[Fact],
    chosen: &[Fact],
    places: &[usize],
    pivots: u32,
) -> Result<Round, Want>
    requires few { length vars.now < 2 ^ 31 }
    requires chosen { IsPath vars.now chosen.now }
    ensures { IfOk result (IsToldBy vars.now facts.now) }
{
    let Ended { answer, last: _ } = corner(alloc, vars, chosen, pivots)?;
    match answer {
        Feasible::Point(point) => {
            let round = by_corner(alloc, facts, point)?;
            Ok(round)
        }
        Feasible::Conflict(multipliers) => {
            let round = by_multipliers(alloc, facts, places, multipliers.as_slice())?;
            Ok(round)
        }
        Feasible::Pivots(_) | Feasible::Range(_) => Ok(Round::Over(Near::Unknown)),
    }
}

/// A point of the path, or multipliers that refute it, where few of its facts tell: the last one, and then each time
/// the one that is least met at a corner of those before. Each run of the simplex method takes at most `pivots` steps.
/// `Want` comes where memory runs out, and nowhere else.
pub(crate) fn by_few_facts(
    alloc: Global,
    vars: &[Sort],
    facts: &[Fact],
    pivots: u32,
) -> Result<Near, Want>
    requires few { length vars.now < 2 ^ 31 }
    requires path { IsPath vars.now facts.now }
    ensures { IfOk result (IsNear vars.now facts.now) }
{
    let mut chosen = Vec::new(alloc);
    let mut places = Vec::new(alloc);
    let mut place = facts.len().saturating_sub(1);
    for _round in 0..MOST {
        chosen = with_fact(alloc, facts, place, chosen)?;
        places.push(place)?;
        match by_chosen(
            alloc,
            vars,
            facts,
            chosen.as_slice(),
            places.as_slice(),
            pivots,
        )? {
            Round::On(next) => place = next,
            Round::Over(told) => return Ok(told),
        }
    }
    Ok(Near::Unknown)
}
