// Assignments that bodies are judged at.
ghost use Rattle.std.specs.Prelude.{IfOk};
ghost use Rattle.sy_loop_bodies.specs.Clauses.{AreAssignedFor, WereAssignedFor};

use std::alloc::Global;
use sy_grammar_base::Problem;
use sy_points::Stored;
use sy_terms::{Theory, Values, Want, copied_values};

/// Copies of the stored assignments.
pub fn copied_assignments<T: Theory>(
    alloc: Global,
    _problem: &Problem<T>,
    stored: &Stored<T>,
) -> Result<Vec<Values<T>>, Want>
    requires { WereAssignedFor T.Theory _problem.now stored.now }
    ensures { IfOk result (λ copies. AreAssignedFor T.Theory _problem.now copies.items) }
{
    let mut copies = Vec::with_capacity(alloc, stored.len())?;
    for place in 0..stored.len() {
        let Some((assignment, _)) = stored.get(place) else {
            unreachable!();
        };
        let copy = copied_values::<T>(alloc, assignment.as_slice())?;
        copies.push(copy)?;
    }
    Ok(copies)
}
