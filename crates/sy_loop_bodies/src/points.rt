// Tuples of arguments as points of a bank.
ghost use Rattle.std.specs.Prelude.{◌≡◌, true, IfOk, IfSome, map};
ghost use Rattle.sy_terms.specs.Denoted.{vals_of};
ghost use Rattle.sy_bank_level.specs.Rows.{ArePointsOf};

use std::alloc::Global;
use sy_meaning::value_sorts;
use sy_terms::{Seq, Sort, Theory, Values, Want, copied_values};

/// Copies of the tuples; `None` where one isn't of these sorts.
pub fn points_of<T: Theory>(
    alloc: Global,
    sorts: &[Sort],
    tuples: &[Values<T>],
) -> Result<Option<Seq<Values<T>>>, Want>
    ensures sorted { IfOk result (λ found.
        IfSome found (λ points. ArePointsOf sorts.now (map (vals_of T.denotes) points))) }
    ensures same { IfOk result (λ found. IfSome found (λ points. points ≡ tuples.now)) }
{
    let mut points = Seq::new(alloc);
    for tuple in tuples {
        let Some(found) = value_sorts::<T>(alloc, tuple.as_slice())? else {
            return Ok(None);
        };
        if !are_same(found.as_slice(), sorts) {
            return Ok(None);
        }
        let copy = copied_values::<T>(alloc, tuple.as_slice())?;
        points.push(copy)?;
    }
    Ok(Some(points))
}

/// Whether the sorts are the same.
fn are_same(first: &[Sort], second: &[Sort]) -> bool
    ensures { result ≡ true → first.now ≡ second.now }
{
    first == second
}
