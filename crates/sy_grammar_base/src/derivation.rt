// Derivation trees.
ghost use Rattle.std.specs.Prelude.{◌≡◌, [], ◌++◌, ◌∷◌, length, OnOk, OnErr, slice_get, MatchOption, IfOk, ◌≤◌};

use std::alloc::Global;
use sy_terms::{Theory, Value, Want};

/// A derivation from a nonterminal. The first number is the rule's. A node has one child for each place for a
/// nonterminal in its rule, from left to right; a constant and a variable come from rules for all of a sort.
#[derive(Drop)]
#[cycle(derivation)]
pub enum Derivation<T: Theory> {
    Node(u32, Derivations<T>),
    Constant(u32, Value<T::Num>),
    Variable(u32, u32),
}

/// A list of derivations.
#[derive(Drop)]
#[cycle(derivation)]
pub struct Derivations<T: Theory> {
    items: Vec<Derivation<T>>,
}

impl<T: Theory> Derivations<T> {
    /// The empty list. It takes no memory.
    pub fn new(alloc: Global) -> Self
        ensures { result.items.items ≡ [] }
    {
        Derivations {
            items: Vec::new(alloc),
        }
    }

    /// The empty list, with memory for so many derivations.
    pub fn with_capacity(alloc: Global, count: usize) -> Result<Self, Want>
        ensures { IfOk result (λ derivations. derivations.items.items ≡ []) }
    {
        let items = Vec::with_capacity(alloc, count)?;
        Ok(Derivations { items })
    }

    /// How many derivations there are.
    pub fn len(&self) -> usize
        ensures { result ≡ length self.now.items.items }
    {
        self.items.len()
    }

    /// The derivation at `i`; `None` exactly where `i >= len`.
    pub fn get(&self, i: usize) -> Option<&Derivation<T>>
        ensures { MatchOption result (length self.now.items.items ≤ i) (λ d.
            slice_get self.now.items.items i ≡ Some d.now) }
    {
        self.items.get(i)
    }

    /// All derivations in order.
    pub fn as_slice(&self) -> &[Derivation<T>]
        ensures { result.now ≡ self.now.items.items }
    {
        self.items.as_slice()
    }

    /// Appends the derivation. On `Want` the list is unchanged and the derivation is dropped.
    pub fn push(&mut self, item: Derivation<T>) -> Result<(), Want>
        ensures ok { OnOk result (self.new.items.items ≡ self.old.items.items ++ item ∷ []) }
        ensures err { OnErr result (self.new.items.items ≡ self.old.items.items) }
    {
        self.items.push(item)?;
        Ok(())
    }
}
