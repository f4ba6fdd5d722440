// Terms with their derivations, which share those that they are made of.
ghost use Rattle.std.specs.Prelude.{◌≡◌, [], ◌++◌, ◌∷◌, OnOk, OnErr, IfOk};

use std::alloc::Global;
use std::rc::Rc;
use sy_grammar_base::{Derivation, Part};
use sy_terms::{Term, Theory, Want};

/// A term with its derivation, which shares those that it is made of.
#[derive(Drop)]
#[cycle(grown)]
pub enum Grown<T: Theory> {
    /// A term that isn't made of others, as a constant or an argument.
    Leaf(Term<T>, Derivation<T>),
    /// What the part of the rule of this number becomes where the others stand for its nonterminals, from left to
    /// right.
    Filled(u32, Rc<Part<T>>, Growns<T>),
}

/// A list of such terms.
#[derive(Drop)]
#[cycle(grown)]
pub struct Growns<T: Theory> {
    items: Vec<Rc<Grown<T>>>,
}

impl<T: Theory> Growns<T> {
    /// The empty list, with memory for so many terms.
    pub fn with_capacity(alloc: Global, count: usize) -> Result<Self, Want>
        ensures { IfOk result (λ growns. growns.items.items ≡ []) }
    {
        let items = Vec::with_capacity(alloc, count)?;
        Ok(Growns { items })
    }

    /// All terms in order.
    pub fn as_slice(&self) -> &[Rc<Grown<T>>]
        ensures { result.now ≡ self.now.items.items }
    {
        self.items.as_slice()
    }

    /// Appends the term. On `Want` the list is unchanged and the term is dropped.
    pub fn push(&mut self, item: Rc<Grown<T>>) -> Result<(), Want>
        ensures ok { OnOk result (self.new.items.items ≡ self.old.items.items ++ item ∷ []) }
        ensures err { OnErr result (self.new.items.items ≡ self.old.items.items) }
    {
        self.items.push(item)?;
        Ok(())
    }
}
