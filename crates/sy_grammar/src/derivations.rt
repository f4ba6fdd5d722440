// Derivations of terms.
ghost use Rattle.std.specs.Prelude.{◌≡◌, ℕ, MatchOption, IfOk, Some, slice_get};
ghost use Rattle.sy_terms.specs.Denoted.{expr_of};
ghost use Rattle.sy_grammar_base.specs.Trees.{Tree, Derives, IsNumbered};
ghost use Rattle.sy_grammar_base.specs.Grown.{syntax_from, tree_of};

use crate::build::build;
use crate::rows::note;
use std::alloc::Global;
use sy_grammar_base::{Derivation, Grammar};
use sy_terms::{Term, Theory, Want};

/// A derivation of the term from the nonterminal; `None` exactly where there is none. Its time is polynomial in the
/// term and the grammar, which may be ambiguous and have cycles of chain rules.
pub fn derive<T: Theory>(
    alloc: Global,
    g: &Grammar<T>,
    non: u32,
    t: &Term<T>,
) -> Result<Option<Derivation<T>>, Want>
    requires numbered { IsNumbered (syntax_from T.denotes g.now) }
    ensures { IfOk result (λ found. MatchOption found
        ((tree : Tree) → Derives (syntax_from T.denotes g.now) non tree (expr_of T.denotes t.now) → ⊥)
        (λ derivation.
        Derives (syntax_from T.denotes g.now) non (tree_of T.denotes derivation) (expr_of T.denotes t.now))) }
{
    let mut steps = Vec::new(alloc);
    let whole = note(alloc, g, t, &mut steps)?;
    match step_at(whole.row(), non) {
        Some(step) => {
            let derivation = build(alloc, steps.as_slice(), step)?;
            Ok(Some(derivation))
        }
        None => Ok(None),
    }
}

/// The row's step for the nonterminal; `None` exactly where it has none.
fn step_at(row: &[Option<usize>], nonterminal: u32) -> Option<usize>
    ensures { MatchOption result ((step : ℕ) → slice_get row.now nonterminal ≡ Some (Some step) →
        ⊥) (λ step. slice_get row.now nonterminal ≡ Some (Some step)) }
{
    *row.get(nonterminal as usize)?
}
