// The places for nonterminals in parts.
ghost use Rattle.std.specs.Prelude.{◌≡◌, length, min};
ghost use Rattle.sy_grammar_base.specs.Patterns.{occurring, all_occurring};
ghost use Rattle.sy_grammar_base.specs.Written.{pattern_of, patterns_of};

use sy_grammar_base::{Part, Parts};
use sy_terms::Theory;

/// How many nonterminals occur in the part, at most `cap`.
#[cycle(places)]
pub fn places<T: Theory>(part: &Part<T>, cap: usize) -> usize
    ensures { result ≡ min cap (length (occurring (pattern_of T.denotes part.now))) }
{
    match part {
        Part::Const(_) => 0,
        Part::Var(_) => 0,
        Part::Non(_) => cap.min(1),
        Part::App(_, parts) => places_of(parts, cap),
        Part::Call(_, parts) => places_of(parts, cap),
    }
}

/// The same over all parts.
#[cycle(places)]
fn places_of<T: Theory>(parts: &Parts<T>, cap: usize) -> usize
    ensures { result ≡ min cap (length (all_occurring (patterns_of T.denotes parts.now.items.items))) }
{
    let mut total = 0usize;
    for part in parts.as_slice() {
        total = total.saturating_add(places(part, cap)).min(cap);
    }
    total
}
