// The kept terms of one size.
ghost use Rattle.std.specs.Prelude.{
  ◌≡◌,
  ◌<◌,
  [],
  ◌++◌,
  ◌∷◌,
  length,
  IfOk,
  OnOk,
  OnErr,
  replicate,
  slice_get,
  slice_index_or,
  slice_set,
};
ghost use Rattle.std.specs.Option.{option_map};
ghost use Rattle.sy_bank_level.specs.Stored.{entry_of, entries_of};
ghost use Rattle.sy_bank_level.specs.Task.{level_of};

use crate::kept::Kept;
use std::alloc::Global;
use sy_terms::{Seq, Theory, Want};

/// The kept terms of one size, by nonterminal.
#[derive(Drop)]
pub struct Level<T: Theory> {
    lists: Vec<Seq<Kept<T>>>,
}

impl<T: Theory> Level<T> {
    /// Nothing for so many nonterminals.
    pub fn new(alloc: Global, nonterminals: usize) -> Result<Level<T>, Want>
        ensures { IfOk result (λ level. level_of T.denotes level ≡ replicate nonterminals []) }
    {
        let mut lists = Vec::with_capacity(alloc, nonterminals)?;
        for _ in 0..nonterminals {
            lists.push(Seq::new(alloc))?;
        }
        Ok(Level { lists })
    }

    /// How many nonterminals there are.
    pub fn len(&self) -> usize
        ensures { result ≡ length (level_of T.denotes self.now) }
    {
        self.lists.len()
    }

    /// What is kept for the nonterminal.
    pub fn of(&self, nonterminal: usize) -> &Seq<Kept<T>>
        requires { nonterminal < length (level_of T.denotes self.now) }
        ensures { entries_of T.denotes result.now ≡ slice_index_or (level_of T.denotes self.now) nonterminal [] }
    {
        &self.lists[nonterminal]
    }

    /// The term at this place of what is kept for the nonterminal; `None` exactly where there is none.
    pub fn get(&self, nonterminal: usize, place: usize) -> Option<&Kept<T>>
        ensures { option_map (λ kept. entry_of T.denotes kept.now) result ≡
            slice_get (slice_index_or (level_of T.denotes self.now) nonterminal []) place }
    {
        self.lists.get(nonterminal)?.get(place)
    }

    /// Keeps the term for the nonterminal, after the others. On `Want` nothing changes and the term is dropped.
    pub fn push(&mut self, nonterminal: usize, kept: Kept<T>) -> Result<(), Want>
        requires { nonterminal < length (level_of T.denotes self.old) }
        ensures ok { OnOk result (level_of T.denotes self.new ≡ slice_set (level_of T.denotes self.old) nonterminal
            (slice_index_or (level_of T.denotes self.old) nonterminal [] ++ entry_of T.denotes kept ∷ [])) }
        ensures err { OnErr result (level_of T.denotes self.new ≡ level_of T.denotes self.old) }
    {
        self.lists[nonterminal].push(kept)?;
        Ok(())
    }
}
