// Unfolded sizes and depths, and the literals that are written.
ghost use Rattle.std.specs.Prelude.{◌≡◌, min, nat_le};
ghost use Rattle.sy_forms_items.specs.Meant.{phrase_of, phrases_of};
ghost use Rattle.sy_forms_items.specs.Measures as spec;
ghost use Rattle.sy_forms_items.specs.Measured.{measures_of};

use crate::phrase::{Phrase, Phrases};
use sy_terms::{Fun, Seq, Theory};

/// The greatest unfolded size and depth of a body, an assumption or a constraint.
const SIZE_MAX: u64 = 1_000_000;

const DEPTH_MAX: u64 = 1200;

/// The unfolded sizes and depths of the definitions so far.
#[derive(Drop)]
pub struct Measures {
    pub sizes: Seq<u64>,
    pub depths: Seq<u64>,
}

/// What a called body adds: that of the definition, and nothing for a function to be found.
fn of_body(measures: &[u64], function: Fun) -> u64
    ensures { result ≡ spec.of_body measures.now function }
{
    match function {
        Fun::Defined(number) => match measures.get(number as usize) {
            Some(measure) => *measure,
            None => 0,
        },
        Fun::Wanted(_) => 0,
    }
}

fn is_within(measure: u64, most: u64) -> bool
    ensures { result ≡ nat_le measure most }
{
    measure <= most
}

/// Whether the unfolded size is at most 1,000,000, and the unfolded depth at most 1,200.
pub fn is_small<T: Theory>(measures: &Measures, phrase: &Phrase<T>) -> bool
    ensures { result ≡ spec.is_within_limits (measures_of measures.now) (phrase_of T.denotes phrase.now) }
{
    let size = phrase.unfolded_size(measures.sizes.as_slice(), SIZE_MAX + 1);
    let depth = phrase.unfolded_depth(measures.depths.as_slice(), DEPTH_MAX + 1);
    is_within(size, SIZE_MAX) & is_within(depth, DEPTH_MAX)
}

impl<T: Theory> Phrase<T> {
    /// The number of nodes where each call of a definition counts its body's too, at most `cap`.
    /// `sizes` are those of the definitions' bodies.
    #[cycle(size)]
    pub fn unfolded_size(&self, sizes: &[u64], cap: u64) -> u64
        ensures { result ≡ min cap (spec.unfolded_size sizes.now (phrase_of T.denotes self.now)) }
    {
        let below = match self {
            Phrase::Literal(_) => 0,
            Phrase::Position(_) => 0,
            Phrase::Local(_) => 0,
            Phrase::Nonterminal(_) => 0,
            Phrase::Operation(_, arguments) => arguments.unfolded_sizes(sizes, cap),
            Phrase::Invocation(function, arguments) => {
                let below = arguments.unfolded_sizes(sizes, cap);
                below.saturating_add(of_body(sizes, *function))
            }
            Phrase::Let(bound, inner) => {
                let below = bound.unfolded_sizes(sizes, cap);
                below.saturating_add(inner.unfolded_size(sizes, cap))
            }
        };
        below.saturating_add(1).min(cap)
    }

    /// The number of nodes on the longest way down, through the bodies of called definitions too, at most `cap`.
    /// `depths` are those of the definitions' bodies.
    #[cycle(depth)]
    pub fn unfolded_depth(&self, depths: &[u64], cap: u64) -> u64
        ensures { result ≡ min cap (spec.unfolded_depth depths.now (phrase_of T.denotes self.now)) }
    {
        let below = match self {
            Phrase::Literal(_) => 0,
            Phrase::Position(_) => 0,
            Phrase::Local(_) => 0,
            Phrase::Nonterminal(_) => 0,
            Phrase::Operation(_, arguments) => arguments.unfolded_depths(depths, cap),
            Phrase::Invocation(function, arguments) => {
                let below = arguments.unfolded_depths(depths, cap);
                below.max(of_body(depths, *function))
            }
            Phrase::Let(bound, inner) => {
                let below = bound.unfolded_depths(depths, cap);
                below.max(inner.unfolded_depth(depths, cap))
            }
        };
        below.saturating_add(1).min(cap)
    }
}

impl<T: Theory> Phrases<T> {
    /// The same over all phrases.
    #[cycle(size)]
    fn unfolded_sizes(&self, sizes: &[u64], cap: u64) -> u64
        ensures { result ≡ min cap (spec.unfolded_sizes sizes.now (phrases_of T.denotes self.now.items.items)) }
    {
        let mut total = 0u64;
        for phrase in self.as_slice() {
            total = total
                .saturating_add(phrase.unfolded_size(sizes, cap))
                .min(cap);
        }
        total
    }

    /// The greatest over all phrases.
    #[cycle(depth)]
    fn unfolded_depths(&self, depths: &[u64], cap: u64) -> u64
        ensures { result ≡ min cap (spec.unfolded_depths depths.now (phrases_of T.denotes self.now.items.items)) }
    {
        let mut greatest = 0u64;
        for phrase in self.as_slice() {
            greatest = greatest.max(phrase.unfolded_depth(depths, cap));
        }
        greatest
    }
}
