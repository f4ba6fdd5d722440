// Places by keys.
use std::alloc::Global;
use std::collections::HashMap;
use sy_seq::Want;

/// Places by the keys of what stands there.
#[derive(Drop)]
pub struct Places {
    map: HashMap<u64, Vec<u32>>,
}

impl Places {
    ghost use Rattle.std.specs.Prelude.{ℕ, ◌≡◌, [], OnOk, OnErr};
    ghost use Rattle.sy_loop_pointwise.specs.Places.{key_places, KeyIsAdded};

    /// No places. It takes no memory.
    pub fn new(alloc: Global) -> Places
        ensures { (key : ℕ) → key_places result key ≡ [] }
    {
        Places {
            map: HashMap::new(alloc),
        }
    }

    /// The places for the key, in the order in which they came.
    pub fn of(&self, key: u64) -> &[u32]
        ensures { result.now ≡ key_places self.now key }
    {
        match self.map.get(&key) {
            Some(places) => places.as_slice(),
            None => &[],
        }
    }

    /// Adds the place for the key. `Want` comes where memory runs out, and nowhere else; nothing changes then.
    pub fn add(&mut self, alloc: Global, key: u64, place: u32) -> Result<(), Want>
        ensures ok { OnOk result (KeyIsAdded (key_places self.old) key place (key_places self.new)) }
        ensures err { OnErr result ((other : ℕ) → key_places self.new other ≡ key_places self.old other) }
    {
        if let Some(places) = self.map.get_mut(&key) {
            places.push(place)?;
            return Ok(());
        }
        let mut places = Vec::with_capacity(alloc, 1)?;
        places.push(place)?;
        self.map.insert(key, places)?;
        Ok(())
    }
}
