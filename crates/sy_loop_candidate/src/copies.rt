// Copies of bodies and of assignments.
ghost use Rattle.std.specs.Prelude.{◌≡◌, ◌<◌, length, map, IfOk};
ghost use Rattle.sy_terms.specs.Denoted.{expr_of};
ghost use Rattle.sy_loop_candidate.specs.Steps.{IsStoredAt};

use std::alloc::Global;
use sy_points::Stored;
use sy_terms::{Bodies, Seq, Theory, Values, Want, copied_values};

/// A copy of the stored assignment of this place.
pub(crate) fn assignment_at<T: Theory>(
    alloc: Global,
    stored: &Stored<T>,
    place: usize,
) -> Result<Values<T>, Want>
    requires { place < length stored.now.items }
    ensures { IfOk result (λ values. IsStoredAt T.denotes stored.now place values) }
{
    let Some((assignment, _)) = stored.get(place) else {
        unreachable!();
    };
    copied_values::<T>(alloc, assignment.as_slice())
}

/// Copies of the bodies. `Want` comes where memory runs out, and nowhere else.
pub fn copied_bodies<T: Theory>(alloc: Global, bodies: &Bodies<T>) -> Result<Bodies<T>, Want>
    ensures { IfOk result (λ copies. map (expr_of T.denotes) copies ≡ map (expr_of T.denotes) bodies.now) }
{
    let mut copies = Seq::new(alloc);
    for body in bodies.as_slice() {
        let copy = body.copy(alloc)?;
        copies.push(copy)?;
    }
    Ok(copies)
}
