// Comparing rows.
ghost use Rattle.std.specs.Prelude.{◌≡◌, ◌↔◌, IsTrue};
ghost use Rattle.sy_terms.specs.Denoted.{vals_of};

use sy_terms::{Theory, Value, same_value};

/// Whether two rows are the same.
pub(crate) fn same_rows<T: Theory>(a: &[Value<T::Num>], b: &[Value<T::Num>]) -> bool
    ensures { IsTrue result ↔ vals_of T.denotes a.now ≡ vals_of T.denotes b.now }
{
    if a.len() != b.len() {
        return false;
    }
    for (x, y) in a.iter().zip(b) {
        if !same_value::<T>(x, y) {
            return false;
        }
    }
    true
}
