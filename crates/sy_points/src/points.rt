ghost use Rattle.std.specs.Prelude.{◌≡◌, ◌↔◌, ◌<◌, ◌≤◌, IsTrue, length, map, Contains, OnErr, IfOk, Some, slice_get, replicate, []};
ghost use Rattle.sy_terms.specs.Denoted.{vals_of};
ghost use Rattle.sy_points.specs.Asked.{Asked, tuples_of, of_function, AreDistinct, IsBounded, Adds};

use std::alloc::Global;
use std::marker::Model;
use sy_terms::{Seq, Theory, Value, Values, Want, copied_values, same_values};

/// What became of a tuple.
#[derive(Clone, Copy, Debug, PartialEq, Eq)]
pub enum Added {
    /// It is the function's last tuple now.
    New,
    /// The function has it already.
    There,
    /// The function has as many tuples as it may.
    Full,
}

/// Per function a list of distinct argument tuples, which contracts see as what they stand for.
#[derive(Drop)]
pub struct Points<T: Theory> {
    alloc: Global,
    limit: u32,
    lists: Vec<Seq<Values<T>>>,
}

impl<T: Theory> Model for Points<T> {
    ghost use Rattle.std.specs.Prelude.{map};
    ghost use Rattle.sy_points.specs.Asked.{Asked, tuples_of, IsBounded};

    ghost Value = { Asked };

    ghost view = { λ p. record { tuples = map (tuples_of T.denotes) p.lists.items; limit = p.limit } };

    ghost invariant = { λ p. IsBounded (record { tuples = map (tuples_of T.denotes) p.lists.items; limit = p.limit }) };
}

/// Whether the tuple is in the list.
fn has<T: Theory>(list: &[Values<T>], tuple: &[Value<T::Num>]) -> bool
    ensures { IsTrue result ↔ Contains (tuples_of T.denotes list.now) (vals_of T.denotes tuple.now) }
{
    for other in list {
        if same_values::<T>(other.as_slice(), tuple) {
            return true;
        }
    }
    false
}

impl<T: Theory> Points<T> {
    /// So many functions without tuples, each of which may have `limit`.
    pub fn new(alloc: Global, functions: u32, limit: u32) -> Result<Points<T>, Want>
        ensures tuples { IfOk result (λ points. points.tuples ≡ replicate functions []) }
        ensures limit { IfOk result (λ points. points.limit ≡ limit) }
    {
        let mut lists = Vec::new(alloc);
        for _ in 0..functions {
            lists.push(Seq::new(alloc))?;
        }
        Ok(Points {
            alloc,
            limit,
            lists,
        })
    }

    /// The function's tuples, in the order in which they came.
    pub fn of(&self, function: u32) -> &Seq<Values<T>>
        requires { function < length self.now.tuples }
        ensures list { slice_get self.now.tuples function ≡ Some (tuples_of T.denotes result.now) }
        ensures distinct { AreDistinct (tuples_of T.denotes result.now) }
        ensures bounded { length result.now ≤ self.now.limit }
    {
        &self.lists[function as usize]
    }

    /// Adds the tuple to the function's, unless it is there or the function has as many as it may.
    pub fn add(&mut self, function: u32, tuple: &[Value<T::Num>]) -> Result<Added, Want>
        requires { function < length self.old.tuples }
        ensures ok { IfOk result (λ added. Adds self.old function (vals_of T.denotes tuple.now) added self.new) }
        ensures err { OnErr result (self.new ≡ self.old) }
    {
        let list = self.lists[function as usize].as_slice();
        if has::<T>(list, tuple) {
            return Ok(Added::There);
        }
        if list.len() >= self.limit as usize {
            return Ok(Added::Full);
        }
        let values = copied_values::<T>(self.alloc, tuple)?;
        self.lists[function as usize].push(values)?;
        Ok(Added::New)
    }
}
