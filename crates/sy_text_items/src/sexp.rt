// Nested lists of atoms, each with the place where it stands.
ghost use Rattle.std.specs.Prelude.{◌≡◌, ◌≤◌, ◌++◌, ◌∷◌, [], length, slice_get, MatchOption, Some, OnOk, OnErr};
ghost use Rattle.sy_text_items.specs.Items.{none, listed};
ghost use Rattle.sy_text_items.specs.Views.{item_of};

use crate::atom::{Atom, Place};
use std::alloc::Global;
use std::marker::Model;
use sy_seq::Want;

/// An atom, or a list of such items: `(`, the items with white space and comments between them, and `)`.
#[derive(Drop)]
#[cycle(sexp)]
pub enum Sexp {
    Atom(Atom, Place),
    List(Sexps, Place),
}

/// The items of a list, which contracts see as a list.
#[derive(Drop)]
#[cycle(sexp)]
pub struct Sexps {
    items: Vec<Sexp>,
}

impl Model for Sexps {
    ghost use Rattle.sy_text_items.specs.Items.{Items, items_size, items_coded};

    ghost Value = { Items };

    ghost coded = { items_coded };

    ghost use Rattle.sy_text_items.specs.Views.{items_of};

    ghost view = { λ a. items_of a.items.items };

    ghost size = { items_size };

    ghost use Rattle.std.proofs.Common.{arith};
    ghost use Rattle.sy_text_items.specs.Falls.{most-le};

    ghost size_decreases = { λ a h. omega (arith, most-le a.items.items) };
}

impl Sexps {
    /// The empty list. It takes no memory.
    pub fn new(alloc: Global) -> Self
        ensures { result ≡ none }
    {
        Sexps {
            items: Vec::new(alloc),
        }
    }

    /// How many items there are.
    pub fn len(&self) -> usize
        ensures { result ≡ length (listed self.now) }
    {
        self.items.len()
    }

    /// The item at `i`; `None` exactly where `i >= len`.
    pub fn get(&self, i: usize) -> Option<&Sexp>
        ensures { MatchOption result (length (listed self.now) ≤ i) (λ x.
            slice_get (listed self.now) i ≡ Some (item_of x.now)) }
    {
        self.items.get(i)
    }

    /// Appends the item. Where memory is refused, nothing is appended, and the item is lost.
    pub fn push(&mut self, item: Sexp) -> Result<(), Want>
        ensures ok { OnOk result (listed self.new ≡ listed self.old ++ item_of item ∷ []) }
        ensures err { OnErr result (self.new ≡ self.old) }
    {
        self.items.push(item)?;
        Ok(())
    }
}
