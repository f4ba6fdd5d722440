// The values that rows have at tuples.
ghost use Rattle.std.specs.Prelude.{◌≡◌, ◌<◌, length, Contains, MatchOption};
ghost use Rattle.sy_terms.specs.Denoted.{val_of, vals_of};
ghost use Rattle.sy_points.specs.Asked.{of_function};
ghost use Rattle.sy_loop_candidate.specs.Observing.{HasValueAt};

use sy_bank_level::Kept;
use sy_loop_truth::point_of;
use sy_points::Points;
use sy_terms::{Theory, Value};

/// What the kept term's row has at the tuple; `None` exactly where the tuple isn't one of the function's.
pub(crate) fn value_at<T: Theory>(
    kept: &Kept<T>,
    function: u32,
    points: &Points<T>,
    tuple: &[Value<T::Num>],
) -> Option<Value<T::Num>>
    requires within { function < length points.now.tuples }
    requires sized { length kept.now.row ≡ length (of_function points.now function) }
    ensures { MatchOption result (Contains (of_function points.now function) (vals_of T.denotes tuple.now) →
        ⊥) (λ value. HasValueAt (of_function points.now function)
        (vals_of T.denotes kept.now.row) (vals_of T.denotes tuple.now) (val_of T.denotes value)) }
{
    let tuples = points.of(function);
    let place = point_of::<T>(tuples.as_slice(), tuple)?;
    let row = kept.row.as_slice();
    Some(row[place])
}
