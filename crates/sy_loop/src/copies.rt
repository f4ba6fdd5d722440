// Copies of stored pairs, and of a leaf with where it leaves the 128 bits.
ghost use Rattle.std.specs.Prelude.{◌<◌, length, IfOk};
ghost use Rattle.sy_bank_level.specs.Stored.{chosen_of};
ghost use Rattle.sy_loop.specs.Copies.{AreStored, AreLeft};

use std::alloc::Global;
use sy_bank_level::Kept;
use sy_loop_candidate::copied_bodies;
use sy_loop_goods::Leaving;
use sy_points::Stored;
use sy_terms::{Bodies, Seq, Theory, Values, Want, copied_values};

/// Copies of the stored bodies of this place and of their assignment.
pub(crate) fn copied_pair<T: Theory>(
    alloc: Global,
    stored: &Stored<T>,
    place: usize,
) -> Result<(Bodies<T>, Values<T>), Want>
    requires { place < length stored.now.items }
    ensures { IfOk result (λ pair. AreStored T.denotes stored.now place pair.0 pair.1) }
{
    let Some((assignment, bodies)) = stored.get(place) else {
        unreachable!();
    };
    let bodies = copied_bodies(alloc, bodies)?;
    let assignment = copied_values::<T>(alloc, assignment.as_slice())?;
    Ok((bodies, assignment))
}

/// Copies of the leaf as the one body, and of the stored assignment.
pub(crate) fn copied_leaf<T: Theory>(
    alloc: Global,
    stored: &Stored<T>,
    leaves: &[&Kept<T>],
    leaving: Leaving,
) -> Result<(Bodies<T>, Values<T>), Want>
    requires leaf { leaving.leaf < length leaves.now }
    requires place { leaving.place < length stored.now.items }
    ensures { IfOk result (λ pair.
        AreLeft T.denotes stored.now (chosen_of T.denotes leaves.now) leaving pair.0 pair.1) }
{
    let term = leaves[leaving.leaf].term(alloc)?;
    let mut bodies = Seq::new(alloc);
    bodies.push(term)?;
    let Some((assignment, _)) = stored.get(leaving.place) else {
        unreachable!();
    };
    let assignment = copied_values::<T>(alloc, assignment.as_slice())?;
    Ok((bodies, assignment))
}
