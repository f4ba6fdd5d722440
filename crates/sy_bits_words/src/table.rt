// Places by keys, where several places may have one key.
ghost use Rattle.std.specs.Prelude.{ℕ, IsSome, nat_eq};
ghost use Rattle.std.specs.HashMap.{get};

use std::alloc::Global;
use std::collections::HashMap;
use sy_seq::Want;

/// Places by keys, in the order in which they were added. What is added stays.
#[derive(Drop)]
pub struct Table {
    firsts: HashMap<u64, u32>,
    others: HashMap<u64, Vec<u32>>,
    ghost others_follow: { (key : ℕ) → IsSome (get nat_eq others key) → IsSome (get nat_eq firsts key) },
}

impl Table {
    ghost use Rattle.std.specs.Prelude.{◌≡◌, [], OnOk, OnErr, slice_get, drop};
    ghost use Rattle.sy_bits_words.specs.Places.{places_of, PlaceIsAdded};

    /// No places. It takes no memory.
    pub(crate) fn new(alloc: Global) -> Table
        ensures { (key : ℕ) → places_of result key ≡ [] }
    {
        Table {
            firsts: HashMap::new(alloc),
            others: HashMap::new(alloc),
        }
    }

    /// The first place for the key; `None` exactly where there is none.
    pub(crate) fn first(&self, key: u64) -> Option<u32>
        ensures { result ≡ slice_get (places_of self.now key) 0 }
    {
        self.firsts.get(&key).copied()
    }

    /// The places for the key after the first.
    pub(crate) fn others(&self, key: u64) -> &[u32]
        ensures { result.now ≡ drop 1 (places_of self.now key) }
    {
        match self.others.get(&key) {
            Some(others) => others.as_slice(),
            None => &[],
        }
    }

    /// Adds the place for the key, after the others. On `Want` nothing changes.
    pub(crate) fn add(&mut self, alloc: Global, key: u64, place: u32) -> Result<(), Want>
        ensures ok { OnOk result (PlaceIsAdded (places_of self.old) key place (places_of self.new)) }
        ensures err { OnErr result ((other : ℕ) → places_of self.new other ≡ places_of self.old other) }
    {
        if !self.firsts.contains_key(&key) {
            self.firsts.insert(key, place)?;
            return Ok(());
        }
        if let Some(others) = self.others.get_mut(&key) {
            others.push(place)?;
            return Ok(());
        }
        let mut others = Vec::with_capacity(alloc, 1)?;
        others.push(place)?;
        self.others.insert(key, others)?;
        Ok(())
    }
}
