// Terms with places for nonterminals.
ghost use Rattle.std.specs.Prelude.{◌≡◌, [], ◌++◌, ◌∷◌, length, OnOk, OnErr, slice_get, MatchOption, ◌≤◌, ◌+◌, min, Some, MatchResult};
ghost use Rattle.sy_grammar_base.specs.Patterns.{own_size, own_sizes, occurring, all_occurring};
ghost use Rattle.sy_grammar_base.specs.Written.{pattern_of, patterns_of};

use std::alloc::Global;
use sy_terms::{Op, Theory, Value, Want};

/// A term in which `Non(n)` stands where a term from nonterminal `n` comes. `Call` calls a definition.
#[derive(Drop)]
#[cycle(part)]
pub enum Part<T: Theory> {
    Const(Value<T::Num>),
    Var(u32),
    Non(u32),
    App(Op, Parts<T>),
    Call(u32, Parts<T>),
}

/// A list of parts.
#[derive(Drop)]
#[cycle(part)]
pub struct Parts<T: Theory> {
    items: Vec<Part<T>>,
}

impl<T: Theory> Parts<T> {
    /// The empty list. It takes no memory.
    pub fn new(alloc: Global) -> Self
        ensures { result.items.items ≡ [] }
    {
        Parts {
            items: Vec::new(alloc),
        }
    }

    /// How many parts there are.
    pub fn len(&self) -> usize
        ensures { result ≡ length self.now.items.items }
    {
        self.items.len()
    }

    /// The part at `i`; `None` exactly where `i >= len`.
    pub fn get(&self, i: usize) -> Option<&Part<T>>
        ensures { MatchOption result (length self.now.items.items ≤ i) (λ part.
            slice_get self.now.items.items i ≡ Some part.now) }
    {
        self.items.get(i)
    }

    /// All parts in order.
    pub fn as_slice(&self) -> &[Part<T>]
        ensures { result.now ≡ self.now.items.items }
    {
        self.items.as_slice()
    }

    /// Appends the part. On `Want` the list is unchanged and the part is dropped.
    pub fn push(&mut self, item: Part<T>) -> Result<(), Want>
        ensures ok { OnOk result (self.new.items.items ≡ self.old.items.items ++ item ∷ []) }
        ensures err { OnErr result (self.new.items.items ≡ self.old.items.items) }
    {
        self.items.push(item)?;
        Ok(())
    }
}

impl<T: Theory> Part<T> {
    /// How many constants, variables and applications stand in the part itself, at most `cap`.
    #[cycle(own_size)]
    pub fn own_size(&self, cap: u32) -> u32
        ensures { result ≡ min cap (own_size (pattern_of T.denotes self.now)) }
    {
        let below = match self {
            Part::Non(_) => return 0,
            Part::Const(_) => 0,
            Part::Var(_) => 0,
            Part::App(_, arguments) => arguments.own_size(cap),
            Part::Call(_, arguments) => arguments.own_size(cap),
        };
        below.saturating_add(1).min(cap)
    }
}

impl<T: Theory> Parts<T> {
    /// The same over all parts.
    #[cycle(own_size)]
    fn own_size(&self, cap: u32) -> u32
        ensures { result ≡ min cap (own_sizes (patterns_of T.denotes self.now.items.items)) }
    {
        let mut total = 0u32;
        for part in &self.items {
            total = total.saturating_add(part.own_size(cap)).min(cap);
        }
        total
    }
}

impl<T: Theory> Part<T> {
    /// The nonterminal that occurs at place `i`, from left to right; `Err` of how far `i` lies beyond the last one.
    #[cycle(occurrence)]
    pub fn occurrence(&self, i: usize) -> Result<u32, usize>
        ensures { MatchResult result (λ n. slice_get (occurring (pattern_of T.denotes self.now)) i ≡ Some n) (λ beyond.
            i ≡ length (occurring (pattern_of T.denotes self.now)) + beyond) }
    {
        match self {
            Part::Const(_) => Err(i),
            Part::Var(_) => Err(i),
            Part::Non(n) => { if i == 0 { Ok(*n) } else { Err(i - 1) } }
            Part::App(_, arguments) => arguments.occurrence(i),
            Part::Call(_, arguments) => arguments.occurrence(i),
        }
    }
}

impl<T: Theory> Parts<T> {
    /// The same over all parts.
    #[cycle(occurrence)]
    fn occurrence(&self, i: usize) -> Result<u32, usize>
        ensures { MatchResult result (λ n. slice_get (all_occurring (patterns_of T.denotes self.now.items.items)) i ≡
            Some n) (λ beyond. i ≡ length (all_occurring (patterns_of T.denotes self.now.items.items)) + beyond) }
    {
        let mut rest = i;
        for part in &self.items {
            match part.occurrence(rest) {
                Ok(n) => return Ok(n),
                Err(beyond) => rest = beyond,
            }
        }
        Err(rest)
    }
}
