// The sorts of arguments, as far as an operator's sort depends on them.
ghost use Rattle.std.specs.Prelude.{◌≡◌, true, ◌==◌, if◌then◌else◌, Some, None};
ghost use Rattle.sy_terms.specs.Sorts as spec;
ghost use Rattle.sy_terms.specs.Fitting.{given_by};
ghost use Rattle.sy_grammar.specs.Seen.{with_argument, sort_by};

use sy_terms::{Op, Sort, Sorted, Theory, same_sort};

/// The sorts of up to three arguments; of more, whether all are one sort. No operator takes four or more arguments
/// of different sorts.
#[derive(Clone, Copy)]
pub enum Seen {
    Nothing,
    One(Sort),
    Two(Sort, Sort),
    Three(Sort, Sort, Sort),
    Alike(Sort),
    Mixed,
}

impl Seen {
    /// With one argument more.
    pub fn with(self, sort: Sort) -> Seen
        ensures { result ≡ with_argument self sort }
    {
        match self {
            Seen::Nothing => Seen::One(sort),
            Seen::One(a) => Seen::Two(a, sort),
            Seen::Two(a, b) => Seen::Three(a, b, sort),
            Seen::Three(a, b, c) => {
                if same_sort(&a, &b) && same_sort(&a, &c) && same_sort(&a, &sort) {
                    Seen::Alike(a)
                } else {
                    Seen::Mixed
                }
            }
            Seen::Alike(a) => {
                if same_sort(&a, &sort) {
                    Seen::Alike(a)
                } else {
                    Seen::Mixed
                }
            }
            Seen::Mixed => Seen::Mixed,
        }
    }

    /// The sort of the operator's value at such arguments; `None` where they don't fit it.
    pub fn sort_under<T: Theory>(self, operator: &Op) -> Option<Sort>
        ensures { result ≡ (if T.owned operator.now then sort_by operator.now self else None) }
    {
        if !T::owns(operator) {
            return None;
        }
        match self {
            Seen::Nothing => given(T::sort_of(operator, &[])),
            Seen::One(a) => given(T::sort_of(operator, &[a])),
            Seen::Two(a, b) => given(T::sort_of(operator, &[a, b])),
            Seen::Three(a, b, c) => given(T::sort_of(operator, &[a, b, c])),
            Seen::Alike(a) => given(T::sort_of(operator, &[a, a, a, a])),
            Seen::Mixed => None,
        }
    }
}

/// The sort, where there is one.
fn given(sorted: Sorted) -> Option<Sort>
    ensures { result ≡ given_by sorted }
{
    match sorted {
        Sorted::Is(sort) => Some(sort),
        Sorted::Mismatch | Sorted::BadWidth => None,
    }
}
