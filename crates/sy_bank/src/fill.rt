// The terms and derivations that kept terms give in a rule's part.
ghost use Rattle.std.specs.Prelude.{◌≡◌, IfOk};
ghost use Rattle.sy_terms.specs.Denoted.{expr_of};
ghost use Rattle.sy_grammar_base.specs.Patterns.{filled};
ghost use Rattle.sy_grammar_base.specs.Written.{pattern_of};
ghost use Rattle.sy_grammar_base.specs.Trees.{Node};
ghost use Rattle.sy_bank_level.specs.Covering.{terms};
ghost use Rattle.sy_bank_level.specs.Shared.{term_from, tree_from};
ghost use Rattle.sy_bank_level.specs.Stored.{chosen_of};
ghost use Rattle.sy_bank_level.specs.Chosen.{children};

use std::alloc::Global;
use std::rc::Rc;
use sy_bank_level::{Grown, Growns, Kept, filled_part};
use sy_grammar_base::Part;
use sy_terms::{Term, Theory, Want};

/// The term that the part becomes where the chosen terms stand for its nonterminals, from left to right, in memory of
/// its own.
pub fn chosen_part<T: Theory>(
    alloc: Global,
    part: &Part<T>,
    chosen: &[&Kept<T>],
) -> Result<Term<T>, Want>
    ensures { IfOk result (λ term. expr_of T.denotes term ≡
        filled (pattern_of T.denotes part.now) (terms (chosen_of T.denotes chosen.now))) }
{
    let mut copies = Vec::with_capacity(alloc, chosen.len())?;
    for kept in chosen {
        let copy = kept.term(alloc)?;
        copies.push(copy)?;
    }
    let term = filled_part(alloc, part, copies.as_slice())?;
    Ok(term)
}

/// The term that the part of the rule of this number becomes where the chosen terms, which it shares, stand for its
/// nonterminals, from left to right.
pub fn grown<T: Theory>(
    alloc: Global,
    rule: u32,
    part: &Rc<Part<T>>,
    chosen: &[&Kept<T>],
) -> Result<Rc<Grown<T>>, Want>
    ensures term { IfOk result (λ grown. term_from T.denotes grown.value ≡
        filled (pattern_of T.denotes part.now.value) (terms (chosen_of T.denotes chosen.now))) }
    ensures tree { IfOk result (λ grown. tree_from T.denotes grown.value ≡
        Node rule (children (chosen_of T.denotes chosen.now))) }
{
    let mut growns = Growns::with_capacity(alloc, chosen.len())?;
    for kept in chosen {
        let shared = kept.grown.clone()?;
        growns.push(shared)?;
    }
    let part = part.clone()?;
    let grown = Rc::new(alloc, Grown::Filled(rule, part, growns))?;
    Ok(grown)
}
