// Watched literals: a clause with more than one literal watches two of its own, and is visited only where
// one of these becomes false.
ghost use Rattle.std.specs.Prelude.{◌≡◌, ◌≢◌, ℕ, [], ◌∷◌, ◌++◌, ◌<◌, ◌*◌, length, vec_len, OnOk, IfOk, Some, None, Option, slice_index_or, slice_set, slice_get, IfSome, ◌+◌, ◌^◌};
ghost use Rattle.std.specs.List.{swap_remove};
ghost use Rattle.sy_cdcl.specs.Watching.{list_of, list_at, pair_of, enlisted, delisted};

use std::alloc::{AllocError, Global};
use std::marker::Model;
use sy_cdcl_literals::Pair;
use sy_clauses::Lit;
use sy_seq::Want;

/// The clauses that watch one literal, by their numbers.
#[derive(Drop)]
pub struct Watchers {
    numbers: Vec<u32>,
}

impl Model for Watchers {
    ghost use Rattle.std.specs.Prelude.{List, ℕ};

    ghost Value = { List ℕ };

    ghost view = { λ w. w.numbers.items };
}

impl Watchers {
    /// No clause.
    pub fn new(alloc: Global) -> Self
        ensures { result ≡ [] }
    {
        Watchers {
            numbers: Vec::new(alloc),
        }
    }

    /// The clause at a place.
    pub fn at(&self, place: usize) -> Option<u32>
        ensures found { result ≡ slice_get self.now place }
        ensures next { IfSome result (λ _. place + 1 < 2 ^ 64) }
    {
        match self.numbers.get(place) {
            Some(number) => Some(*number),
            None => None,
        }
    }

    /// Adds a clause.
    pub fn push(&mut self, number: u32) -> Result<(), Want>
        ensures { OnOk result (self.new ≡ self.old ++ number ∷ []) }
    {
        self.numbers.push(number)?;
        Ok(())
    }

    /// Takes the clause at a place out; the last one takes its place.
    pub fn remove(&mut self, place: usize)
        requires { place < length self.old }
        ensures { self.new ≡ swap_remove self.old place 0 }
    {
        self.numbers.swap_remove(place);
    }
}

/// The pair that a clause watches, where it has one, and the place in the clause behind the last literal
/// that it came to watch. A search that begins there passes over that literal, and the false ones before
/// it. No contract speaks of the place, since any one is right. It takes 16 bytes, as a record with a
/// `Pair` would not.
#[derive(Drop)]
pub struct Watched {
    first_var: u32,
    second_var: u32,
    hint: u32,
    first_positive: bool,
    second_positive: bool,
    is_paired: bool,
}

impl Model for Watched {
    ghost use Rattle.std.specs.Prelude.{Option};
    ghost use Rattle.sy_cdcl_literals.specs.declared.outcomes.Pair.{Pair};
    ghost use Rattle.sy_cdcl.specs.Codes.{pair_if};

    ghost Value = { Option Pair };

    ghost view = { λ w. pair_if w.is_paired w.first_var w.first_positive w.second_var w.second_positive };
}

impl Watched {
    /// No pair.
    fn unwatched() -> Self
        ensures { result ≡ None }
    {
        Watched {
            first_var: 0,
            second_var: 0,
            hint: 0,
            first_positive: false,
            second_positive: false,
            is_paired: false,
        }
    }

    /// The pair, where there is one.
    fn pair(&self) -> Option<Pair>
        ensures { result ≡ self.now }
    {
        if !self.is_paired {
            return None;
        }
        let first = Lit {
            var: self.first_var,
            positive: self.first_positive,
        };
        let second = Lit {
            var: self.second_var,
            positive: self.second_positive,
        };
        Some(Pair { first, second })
    }

    /// The pair, whose second literal was found at this place.
    fn found_at(pair: Pair, place: usize) -> Self
        ensures { result ≡ Some pair }
    {
        let hint = if place < 0xffff_ffff {
            place as u32 + 1
        } else {
            0
        };
        Watched {
            first_var: pair.first.var,
            second_var: pair.second.var,
            hint,
            first_positive: pair.first.positive,
            second_positive: pair.second.positive,
            is_paired: true,
        }
    }
}

/// The pair that each clause watches, the clauses that watch each literal, and how many entries of the
/// trail were visited. A clause without a pair has a literal that is true at the lowest level.
#[derive(Drop)]
pub struct Watches {
    pub pairs: Vec<Watched>,
    pub lists: Vec<Watchers>,
    pub head: usize,
}

/// Where the clauses that watch the literal are listed.
pub fn list_index(literal: Lit) -> usize
    ensures { result ≡ list_of literal }
{
    let place = 2 * literal.var as usize;
    if literal.positive { place + 1 } else { place }
}

impl Watches {
    /// No clause is watched.
    pub fn new(alloc: Global, vars: u32) -> Result<Watches, Want>
        ensures pairs { IfOk result (λ w. w.pairs.items ≡ []) }
        ensures lists { IfOk result (λ w. length w.lists.items ≡ 2 * vars) }
        ensures head { IfOk result (λ w. w.head ≡ 0) }
    {
        let mut lists = Vec::new(alloc);
        for _ in 0..vars {
            lists.push(Watchers::new(alloc))?;
            lists.push(Watchers::new(alloc))?;
        }
        Ok(Watches {
            pairs: Vec::new(alloc),
            lists,
            head: 0,
        })
    }

    /// The pair of a clause.
    pub fn pair(&self, number: u32) -> Option<Pair>
        ensures { result ≡ pair_of self.now.pairs.items number }
    {
        match self.pairs.get(number as usize) {
            Some(watched) => watched.pair(),
            None => None,
        }
    }

    /// Where a search for another literal to watch is to begin.
    pub fn hint(&self, number: u32) -> usize {
        match self.pairs.get(number as usize) {
            Some(watched) => watched.hint as usize,
            None => 0,
        }
    }

    /// The clause at a place of a list.
    pub fn watcher(&self, list: usize, place: usize) -> Option<u32>
        ensures found { result ≡ slice_get (list_at self.now.lists.items list) place }
        ensures next { IfSome result (λ _. place + 1 < 2 ^ 64) }
    {
        match self.lists.get(list) {
            Some(watchers) => watchers.at(place),
            None => None,
        }
    }

    /// Adds a clause to a list.
    fn enlist(&mut self, list: usize, number: u32) -> Result<(), Want>
        requires { list < length self.old.lists.items }
        ensures lists { OnOk result (self.new.lists.items ≡ enlisted self.old.lists.items list number) }
        ensures pairs { self.new.pairs.items ≡ self.old.pairs.items }
        ensures head { self.new.head ≡ self.old.head }
    {
        self.lists[list].push(number)?;
        Ok(())
    }

    /// Takes the clause at a place out of a list.
    fn delist(&mut self, list: usize, place: usize)
        requires list { list < length self.old.lists.items }
        requires place { place < length (list_at self.old.lists.items list) }
        ensures lists { self.new.lists.items ≡ delisted self.old.lists.items list place }
        ensures pairs { self.new.pairs.items ≡ self.old.pairs.items }
        ensures head { self.new.head ≡ self.old.head }
    {
        self.lists[list].remove(place);
    }

    /// Watches the next clause by these two of its literals.
    pub fn watch(&mut self, number: u32, pair: Pair) -> Result<(), Want>
        requires first { list_of pair.first < length self.old.lists.items }
        requires second { list_of pair.second < length self.old.lists.items }
        ensures lists { OnOk result (self.new.lists.items ≡
            enlisted (enlisted self.old.lists.items (list_of pair.first) number) (list_of pair.second) number) }
        ensures pairs { OnOk result (self.new.pairs.items ≡ self.old.pairs.items ++ Some pair ∷ []) }
        ensures head { self.new.head ≡ self.old.head }
    {
        self.pairs.push(Watched::found_at(pair, 1))?;
        self.enlist(list_index(pair.first), number)?;
        self.enlist(list_index(pair.second), number)?;
        Ok(())
    }

    /// Gives the next clause no pair.
    pub fn skip(&mut self) -> Result<(), Want>
        ensures lists { self.new.lists.items ≡ self.old.lists.items }
        ensures pairs { OnOk result (self.new.pairs.items ≡ self.old.pairs.items ++ None ∷ []) }
        ensures head { self.new.head ≡ self.old.head }
    {
        self.pairs.push(Watched::unwatched())?;
        Ok(())
    }

    /// Gives the clause at a place of a list another pair, whose second literal is new and was found at
    /// the place `found` of the clause.
    pub fn change(
        &mut self,
        list: usize,
        place: usize,
        number: u32,
        pair: Pair,
        found: usize,
    ) -> Result<(), Want>
        requires number { number < length self.old.pairs.items }
        requires list { list < length self.old.lists.items }
        requires place { place < length (list_at self.old.lists.items list) }
        requires second { list_of pair.second < length self.old.lists.items }
        ensures lists { OnOk result (self.new.lists.items ≡
            enlisted (delisted self.old.lists.items list place) (list_of pair.second) number) }
        ensures pairs { OnOk result (self.new.pairs.items ≡ slice_set self.old.pairs.items number (Some pair)) }
        ensures head { self.new.head ≡ self.old.head }
    {
        self.delist(list, place);
        self.pairs[number as usize] = Watched::found_at(pair, found);
        self.enlist(list_index(pair.second), number)?;
        Ok(())
    }
}
