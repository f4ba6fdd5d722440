// Sizes of derivations.
ghost use Rattle.std.specs.Prelude.{◌≡◌, min, map};
ghost use Rattle.sy_terms.specs.Denoted.{val_of};
ghost use Rattle.sy_grammar_base.specs.Patterns.{occurring};
ghost use Rattle.sy_grammar_base.specs.Written.{pattern_of};
ghost use Rattle.sy_grammar_base.specs.Trees.{tree_size, tree_sizes};
ghost use Rattle.sy_grammar_base.specs.Grown.{syntax_from, tree_of, trees_of};

use crate::constants::constant_size;
use sy_grammar_base::{Derivation, Derivations, Grammar, Part};
use sy_terms::{Theory, Values};

/// The size of the derivation from the nonterminal, at most `cap`: constants, variables, applications and calls count
/// 1 each, chain rules nothing, and a constant that a rule for all of a sort gave what `constant_size` says.
#[cycle(size)]
pub fn derivation_size<T: Theory>(
    g: &Grammar<T>,
    non: u32,
    d: &Derivation<T>,
    pool: &Values<T>,
    cap: u32,
) -> u32
    ensures { result ≡ min cap
        (tree_size (syntax_from T.denotes g.now) (map (val_of T.denotes) pool.now) non (tree_of T.denotes d.now)) }
{
    match d {
        Derivation::Node(rule, children) => match g.part(non, *rule) {
            Some(part) => {
                let below = children_size(g, children, part, pool, cap);
                below.saturating_add(part.own_size(cap)).min(cap)
            }
            None => 0,
        },
        Derivation::Constant(_, value) => constant_size::<T>(value, pool).min(cap),
        Derivation::Variable(_, _) => cap.min(1),
    }
}

/// The sum of the sizes of the derivations that stand for the part's nonterminals, at most `cap`.
#[cycle(size)]
fn children_size<T: Theory>(
    g: &Grammar<T>,
    children: &Derivations<T>,
    part: &Part<T>,
    pool: &Values<T>,
    cap: u32,
) -> u32
    ensures { result ≡ min cap (tree_sizes (syntax_from T.denotes g.now) (map (val_of T.denotes) pool.now)
        (occurring (pattern_of T.denotes part.now)) (trees_of T.denotes children.now.items.items)) }
{
    let mut total = 0u32;
    for (place, child) in children.as_slice().iter().enumerate() {
        let Ok(non) = part.occurrence(place) else {
            return total;
        };
        total = total
            .saturating_add(derivation_size(g, non, child, pool, cap))
            .min(cap);
    }
    total
}
