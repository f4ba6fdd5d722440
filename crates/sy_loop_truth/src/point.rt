// The numbers of tuples.
ghost use Rattle.std.specs.Prelude.{◌≡◌, Contains, MatchOption, Some, slice_get};
ghost use Rattle.sy_terms.specs.Denoted.{vals_of};
ghost use Rattle.sy_points.specs.Asked.{tuples_of};

use sy_terms::{Theory, Value, Values, same_values};

/// The number of the tuple in the list; `None` exactly where it isn't there.
pub fn point_of<T: Theory>(tuples: &[Values<T>], tuple: &[Value<T::Num>]) -> Option<usize>
    ensures { MatchOption result (Contains (tuples_of T.denotes tuples.now) (vals_of T.denotes tuple.now) →
        ⊥) (λ point. slice_get (tuples_of T.denotes tuples.now) point ≡ Some (vals_of T.denotes tuple.now)) }
{
    for point in 0..tuples.len() {
        if same_values::<T>(tuples[point].as_slice(), tuple) {
            return Some(point);
        }
    }
    None
}
