// The tuples that candidates ask for.
ghost use Rattle.std.specs.Prelude.{ℕ, ◌<◌, length, Contains, IfOk, OnOk};
ghost use Rattle.sy_loop_spec.specs.Adding.{GainsTuples};
ghost use Rattle.sy_loop_truth.specs.Answers.{AddsCalls};

use std::alloc::Global;
use sy_meaning::Trace;
use sy_points::{Added, Points};
use sy_terms::{Theory, Want};

/// What became of the calls that a candidate asks for.
#[derive(Clone, Copy)]
pub enum Adding {
    /// All were there.
    There,
    /// All are there now, and one or more are new.
    New,
    /// One isn't there, and its function has as many tuples as it may.
    Full(u32),
}

/// Adds the tuples of the calls to the points of their functions. `Want` comes where memory runs out, and nowhere else;
/// nothing is promised of the points then.
pub fn add_calls<T: Theory>(points: &mut Points<T>, calls: &Trace<T>) -> Result<Adding, Want>
    requires within { (function : ℕ) (tuple : _) → Contains calls.now (function, tuple) →
        function < length points.old.tuples }
    ensures gains { OnOk result (GainsTuples calls.now points.old points.new) }
    ensures answer { IfOk result (λ adding. AddsCalls calls.now points.old points.new adding) }
{
    let mut adding = Adding::There;
    for place in 0..calls.len() {
        let Some((function, tuple)) = calls.get(place) else {
            unreachable!();
        };
        match points.add(function, tuple.as_slice())? {
            Added::There => {}
            Added::New => adding = Adding::New,
            Added::Full => return Ok(Adding::Full(function)),
        }
    }
    Ok(adding)
}
