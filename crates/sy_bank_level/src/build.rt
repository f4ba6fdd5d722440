// Terms and derivations of kept terms, in memory of their own.
ghost use Rattle.std.specs.Prelude.{◌≡◌, IfOk, map};
ghost use Rattle.sy_terms.specs.Denoted.{expr_of};
ghost use Rattle.sy_grammar_base.specs.Grown.{tree_of, trees_of};
ghost use Rattle.sy_bank_level.specs.Shared.{term_from, terms_from, tree_from, shared_trees};
ghost use Rattle.sy_bank_level.specs.Stored.{entry_of};

use crate::fill::filled_part;
use crate::grown::{Grown, Growns};
use crate::kept::Kept;
use std::alloc::Global;
use sy_grammar_base::{Derivation, Derivations};
use sy_terms::{Term, Theory, Want};

impl<T: Theory> Kept<T> {
    /// The term, in memory of its own.
    pub fn term(&self, alloc: Global) -> Result<Term<T>, Want>
        ensures { IfOk result (λ term. expr_of T.denotes term ≡ (entry_of T.denotes self.now).term) }
    {
        let term = self.grown.term(alloc)?;
        Ok(term)
    }

    /// The term's derivation, in memory of its own.
    pub fn derivation(&self, alloc: Global) -> Result<Derivation<T>, Want>
        ensures { IfOk result (λ derivation. tree_of T.denotes derivation ≡ (entry_of T.denotes self.now).tree) }
    {
        let derivation = self.grown.derivation(alloc)?;
        Ok(derivation)
    }
}

impl<T: Theory> Grown<T> {
    /// The term, in memory of its own.
    #[cycle(term)]
    fn term(&self, alloc: Global) -> Result<Term<T>, Want>
        ensures { IfOk result (λ term. expr_of T.denotes term ≡ term_from T.denotes self.now) }
    {
        match self {
            Grown::Leaf(term, _) => {
                let copy = term.copy(alloc)?;
                Ok(copy)
            }
            Grown::Filled(_, part, parts) => {
                let terms = parts.terms(alloc)?;
                let filled = filled_part(alloc, part, &terms)?;
                Ok(filled)
            }
        }
    }

    /// The derivation, in memory of its own.
    #[cycle(derivation)]
    fn derivation(&self, alloc: Global) -> Result<Derivation<T>, Want>
        ensures { IfOk result (λ derivation. tree_of T.denotes derivation ≡ tree_from T.denotes self.now) }
    {
        match self {
            Grown::Leaf(_, derivation) => {
                let copy = copied_derivation(alloc, derivation)?;
                Ok(copy)
            }
            Grown::Filled(rule, _, parts) => {
                let children = parts.derivations(alloc)?;
                Ok(Derivation::Node(*rule, children))
            }
        }
    }
}

impl<T: Theory> Growns<T> {
    /// The terms, in memory of their own.
    #[cycle(term)]
    fn terms(&self, alloc: Global) -> Result<Vec<Term<T>>, Want>
        ensures { IfOk result (λ terms. map (expr_of T.denotes) terms.items ≡
            terms_from T.denotes self.now.items.items) }
    {
        let all = self.as_slice();
        let mut terms = Vec::with_capacity(alloc, all.len())?;
        for grown in all {
            let term = grown.term(alloc)?;
            terms.push(term)?;
        }
        Ok(terms)
    }

    /// The derivations, in memory of their own.
    #[cycle(derivation)]
    fn derivations(&self, alloc: Global) -> Result<Derivations<T>, Want>
        ensures { IfOk result (λ derivations. trees_of T.denotes derivations.items.items ≡
            shared_trees T.denotes self.now.items.items) }
    {
        let all = self.as_slice();
        let mut derivations = Derivations::with_capacity(alloc, all.len())?;
        for grown in all {
            let derivation = grown.derivation(alloc)?;
            derivations.push(derivation)?;
        }
        Ok(derivations)
    }
}

/// The same derivation, in memory of its own.
#[cycle(copied)]
fn copied_derivation<T: Theory>(
    alloc: Global,
    derivation: &Derivation<T>,
) -> Result<Derivation<T>, Want>
    ensures { IfOk result (λ copy. tree_of T.denotes copy ≡ tree_of T.denotes derivation.now) }
{
    match derivation {
        Derivation::Node(rule, children) => {
            let copies = copied_derivations(alloc, children)?;
            Ok(Derivation::Node(*rule, copies))
        }
        Derivation::Constant(rule, value) => Ok(Derivation::Constant(*rule, *value)),
        Derivation::Variable(rule, position) => Ok(Derivation::Variable(*rule, *position)),
    }
}

/// The same for a list.
#[cycle(copied)]
fn copied_derivations<T: Theory>(
    alloc: Global,
    derivations: &Derivations<T>,
) -> Result<Derivations<T>, Want>
    ensures { IfOk result (λ copies. trees_of T.denotes copies.items.items ≡
        trees_of T.denotes derivations.now.items.items) }
{
    let mut copies = Derivations::with_capacity(alloc, derivations.len())?;
    for derivation in derivations.as_slice() {
        let copy = copied_derivation(alloc, derivation)?;
        copies.push(copy)?;
    }
    Ok(copies)
}
