// Where kept terms with a row may stand.
ghost use Rattle.std.specs.Prelude.{ℕ, IsSome, nat_eq};
ghost use Rattle.std.specs.HashMap.{get};

use std::alloc::Global;
use std::collections::HashMap;
use sy_terms::Want;

/// A place among kept terms.
#[derive(Clone, Copy)]
pub struct Place {
    pub nonterminal: u32,
    pub size: u32,
    pub index: usize,
}

/// Places by the numbers of their rows.
#[derive(Drop)]
pub struct Table {
    firsts: HashMap<u64, Place>,
    others: HashMap<u64, Vec<Place>>,
    ghost others_follow: { (number : ℕ) → IsSome (get nat_eq others number) → IsSome (get nat_eq firsts number) },
}

impl Table {
    ghost use Rattle.std.specs.Prelude.{◌≡◌, [], OnOk, OnErr, slice_get, drop};
    ghost use Rattle.std.specs.Option.{option_map};
    ghost use Rattle.sy_bank_level.specs.Places.{places_of};
    ghost use Rattle.sy_bank_level.specs.Hashing.{PlaceIsAdded};

    /// No places. It takes no memory.
    pub fn new(alloc: Global) -> Table
        ensures { (number : ℕ) → places_of result number ≡ [] }
    {
        Table {
            firsts: HashMap::new(alloc),
            others: HashMap::new(alloc),
        }
    }

    /// The first place for the number; `None` exactly where there is none.
    pub fn first(&self, hash: u64) -> Option<&Place>
        ensures { option_map (λ place. place.now) result ≡ slice_get (places_of self.now hash) 0 }
    {
        self.firsts.get(&hash)
    }

    /// The places for the number after the first.
    pub fn others(&self, hash: u64) -> &[Place]
        ensures { result.now ≡ drop 1 (places_of self.now hash) }
    {
        match self.others.get(&hash) {
            Some(others) => others.as_slice(),
            None => &[],
        }
    }

    /// Adds the place for the number. On `Want` nothing changes.
    pub fn add(&mut self, alloc: Global, hash: u64, place: Place) -> Result<(), Want>
        ensures ok { OnOk result (PlaceIsAdded (places_of self.old) hash place (places_of self.new)) }
        ensures err { OnErr result ((number : ℕ) → places_of self.new number ≡ places_of self.old number) }
    {
        if !self.firsts.contains_key(&hash) {
            self.firsts.insert(hash, place)?;
            return Ok(());
        }
        if let Some(others) = self.others.get_mut(&hash) {
            others.push(place)?;
            return Ok(());
        }
        let mut others = Vec::with_capacity(alloc, 1)?;
        others.push(place)?;
        self.others.insert(hash, others)?;
        Ok(())
    }
}
