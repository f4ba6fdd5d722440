// The size of a part, and the places in it.
ghost use Rattle.std.specs.Prelude.{◌≡◌, ◌+◌, ◌<◌, min, IfOk, MatchOption};
ghost use Rattle.sy_grammar_base.specs.Patterns.{occurring, own_size, own_sizes};
ghost use Rattle.sy_grammar_base.specs.Written.{pattern_of, patterns_of};

use std::alloc::Global;
use sy_grammar_base::{Part, Parts};
use sy_terms::{Theory, Want};

/// How many constants, variables, applications and calls stand in the part itself, at most `cap`.
#[cycle(own)]
fn own<T: Theory>(part: &Part<T>, cap: usize) -> usize
    ensures { result ≡ min cap (own_size (pattern_of T.denotes part.now)) }
{
    match part {
        Part::Const(_) => cap.min(1),
        Part::Var(_) => cap.min(1),
        Part::Non(_) => 0,
        Part::App(_, parts) => all_own(parts, cap).saturating_add(1).min(cap),
        Part::Call(_, parts) => all_own(parts, cap).saturating_add(1).min(cap),
    }
}

/// The same over all parts.
#[cycle(own)]
fn all_own<T: Theory>(parts: &Parts<T>, cap: usize) -> usize
    ensures { result ≡ min cap (own_sizes (patterns_of T.denotes parts.now.items.items)) }
{
    let mut total = 0usize;
    for part in parts.as_slice() {
        total = total.saturating_add(own(part, cap)).min(cap);
    }
    total
}

/// What is left of the size for the terms at the part's places; `None` exactly where the part itself is larger.
pub fn left_of<T: Theory>(part: &Part<T>, size: u32) -> Option<usize>
    ensures { MatchOption result (size < own_size (pattern_of T.denotes part.now)) (λ left.
        own_size (pattern_of T.denotes part.now) + left ≡ size) }
{
    let size = size as usize;
    size.checked_sub(own(part, size + 1))
}

/// The nonterminals that occur in the part, from left to right.
pub fn places<T: Theory>(alloc: Global, part: &Part<T>) -> Result<Vec<u32>, Want>
    ensures { IfOk result (λ places. places.items ≡ occurring (pattern_of T.denotes part.now)) }
{
    let mut places = Vec::new(alloc);
    while let Ok(nonterminal) = part.occurrence(places.len()) {
        places.push(nonterminal)?;
    }
    Ok(places)
}
