// Facts that are chosen of a path, and points that meet all of its facts.
ghost use Rattle.std.specs.Prelude.{◌≡◌, List, [], All, true, IfOk, IfSome};
ghost use Rattle.sy_terms.specs.declared.sort.Sort.{Sort};
ghost use Rattle.sy_linear_known.specs.declared.path.Fact.TheVariants.{AtLeast};
ghost use Rattle.sy_intsolve_paths_laws.specs.Paths.{Suit, IsPath};
ghost use Rattle.sy_intsolve_cuts.specs.Points.{IsPointOf};

use std::alloc::Global;
use sy_frac::Frac;
use sy_intsolve_cuts::meets;
use sy_linear_known::{Fact, Form};
use sy_seq::Want;

/// The form of the fact at this place, where it is on one.
fn form_at(facts: &[Fact], place: usize) -> Option<&Form>
    ensures { (vars : List Sort) → All (Suit vars) facts.now → IfSome result (λ form. Suit vars (AtLeast form.now)) }
{
    match facts.get(place)? {
        Fact::AtLeast(form) => Some(form),
        Fact::Is(_, _) => None,
    }
}

/// The chosen facts with that at this place, where it is on a form.
pub(crate) fn with_fact(
    alloc: Global,
    facts: &[Fact],
    place: usize,
    chosen: Vec<Fact>,
) -> Result<Vec<Fact>, Want>
    ensures { (vars : List Sort) → IsPath vars facts.now →
        IsPath vars chosen.items → IfOk result (λ all. IsPath vars all.items) }
{
    let Some(form) = form_at(facts, place) else {
        return Ok(chosen);
    };
    let copy = form.copy(alloc)?;
    let mut all = chosen;
    all.push(Fact::AtLeast(copy))?;
    Ok(all)
}

/// Whether the point is known to meet all facts.
pub(crate) fn are_met(facts: &[Fact], point: &[Frac]) -> bool
    ensures { (vars : List Sort) → result ≡ true → IsPointOf vars [] point.now → IsPointOf vars facts.now point.now }
{
    for fact in facts {
        if !meets(fact, point) {
            return false;
        }
    }
    true
}
