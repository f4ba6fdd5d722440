// Multipliers of chosen facts, as multipliers of all.
ghost use Rattle.std.specs.Prelude.{IfOk, IfSome};
ghost use Rattle.sy_linear_known.specs.Trees.{forms, IsContradiction};

use std::alloc::{AllocError, Global};
use sy_frac::Frac;
use sy_linear::contradicts;
use sy_linear_known::{CheckEnd, Fact};
use sy_seq::{Seq, Want};
use sy_simplex::zero;

/// The multiplier of the fact at this place, by those of the chosen places; 0 where it isn't one of these.
fn multiplier(place: usize, places: &[usize], multipliers: &[Frac]) -> Frac {
    for at in 0..places.len() {
        if places[at] == place
            && let Some(number) = multipliers.get(at)
        {
            return *number;
        }
    }
    zero()
}

/// A multiplier for each fact on a form, by those of the chosen places.
fn all_multipliers(
    alloc: Global,
    facts: &[Fact],
    places: &[usize],
    multipliers: &[Frac],
) -> Result<Seq<Frac>, Want> {
    let mut all = Seq::new(alloc);
    for place in 0..facts.len() {
        if let Fact::AtLeast(_) = &facts[place] {
            all.push(multiplier(place, places, multipliers))?;
        }
    }
    Ok(all)
}

/// A multiplier for each form of the facts, by those of the chosen places, where these combine the forms to a negative
/// constant and each number that this forms fits.
pub(crate) fn contradiction(
    alloc: Global,
    facts: &[Fact],
    places: &[usize],
    multipliers: &[Frac],
) -> Result<Option<Seq<Frac>>, Want>
    ensures { IfOk result (λ found. IfSome found (λ all. IsContradiction all (forms facts.now))) }
{
    let all = all_multipliers(alloc, facts, places, multipliers)?;
    match contradicts(alloc, facts, all.as_slice(), 0) {
        Ok(true) => Ok(Some(all)),
        Ok(false) | Err(CheckEnd::Range(_)) => Ok(None),
        Err(CheckEnd::Want) => Err(AllocError),
    }
}
