ghost use Rattle.std.specs.Prelude.{◌≡◌, [], ◌++◌, ◌∷◌, length, OnOk, OnErr, slice_get, MatchOption, ◌≤◌, min, IfOk, IsTrue, ◌↔◌};
ghost use Rattle.sy_terms.specs.Expr.{nodes, nodes_of, depth, depth_of};
ghost use Rattle.sy_terms.specs.Denoted.{expr_of, exprs_of};

use crate::op::Op;
use crate::sort::{Sort, Value};
use crate::theory::Theory;
use crate::values::same_value;
use std::alloc::Global;
use sy_seq::{Seq, Want};

/// A function that a term calls: a definition, or a function to be found.
#[derive(Clone, Copy, Debug, PartialEq, Eq)]
pub enum Fun {
    /// The definition of this number.
    Defined(u32),
    /// The function to be found of this number.
    Wanted(u32),
}

impl Fun {
    /// Whether the two are the same function.
    pub fn equals(&self, other: &Fun) -> bool
        ensures { IsTrue result ↔ self.now ≡ other.now }
    {
        self == other
    }
}

/// A term over a theory.
#[derive(Drop)]
#[cycle(term)]
pub enum Term<T: Theory> {
    /// A value. An integer is never negative: `-5` is `App(Neg, [Const(5)])`.
    Const(Value<T::Num>),
    /// A position of the list of values in force.
    Var(u32),
    /// An operator at arguments.
    App(Op, Terms<T>),
    /// A function at arguments.
    Call(Fun, Terms<T>),
    /// Appends the values of the terms to the list in force, for the inner term.
    Let(Terms<T>, Box<Term<T>>),
}

/// A list of terms.
#[derive(Drop)]
#[cycle(term)]
pub struct Terms<T: Theory> {
    items: Vec<Term<T>>,
}

impl<T: Theory> Terms<T> {
    /// The empty list. It takes no memory.
    pub fn new(alloc: Global) -> Self
        ensures { result.items.items ≡ [] }
    {
        Terms {
            items: Vec::new(alloc),
        }
    }

    /// The empty list, with memory for so many terms.
    pub fn with_capacity(alloc: Global, count: usize) -> Result<Self, Want>
        ensures { IfOk result (λ terms. terms.items.items ≡ []) }
    {
        let items = Vec::with_capacity(alloc, count)?;
        Ok(Terms { items })
    }

    /// How many terms there are.
    pub fn len(&self) -> usize
        ensures { result ≡ length self.now.items.items }
    {
        self.items.len()
    }

    /// The term at `i`; `None` exactly where `i >= len`.
    pub fn get(&self, i: usize) -> Option<&Term<T>>
        ensures { MatchOption result (length self.now.items.items ≤ i) (λ term.
            slice_get self.now.items.items i ≡ Some term.now) }
    {
        self.items.get(i)
    }

    /// All terms in order.
    pub fn as_slice(&self) -> &[Term<T>]
        ensures { result.now ≡ self.now.items.items }
    {
        self.items.as_slice()
    }

    /// Appends the term. On `Want` the list is unchanged and the term is dropped.
    pub fn push(&mut self, item: Term<T>) -> Result<(), Want>
        ensures ok { OnOk result (self.new.items.items ≡ self.old.items.items ++ item ∷ []) }
        ensures err { OnErr result (self.new.items.items ≡ self.old.items.items) }
    {
        self.items.push(item)?;
        Ok(())
    }
}

impl<T: Theory> Term<T> {
    /// The number of nodes, at most `cap`.
    #[cycle(size)]
    pub fn size(&self, cap: u64) -> u64
        ensures { result ≡ min cap (nodes (expr_of T.denotes self.now)) }
    {
        let below = match self {
            Term::Const(_) => 0,
            Term::Var(_) => 0,
            Term::App(_, arguments) => arguments.size(cap),
            Term::Call(_, arguments) => arguments.size(cap),
            Term::Let(bound, inner) => bound.size(cap).saturating_add(inner.size(cap)),
        };
        below.saturating_add(1).min(cap)
    }

    /// The number of nodes on the longest way down, at most `cap`. A leaf has depth 1.
    #[cycle(depth)]
    pub fn depth(&self, cap: u64) -> u64
        ensures { result ≡ min cap (depth (expr_of T.denotes self.now)) }
    {
        let below = match self {
            Term::Const(_) => 0,
            Term::Var(_) => 0,
            Term::App(_, arguments) => arguments.depth(cap),
            Term::Call(_, arguments) => arguments.depth(cap),
            Term::Let(bound, inner) => bound.depth(cap).max(inner.depth(cap)),
        };
        below.saturating_add(1).min(cap)
    }

    /// An equal term, in memory of its own.
    #[cycle(copy)]
    pub fn copy(&self, alloc: Global) -> Result<Term<T>, Want>
        ensures { IfOk result (λ term. expr_of T.denotes term ≡ expr_of T.denotes self.now) }
    {
        match self {
            Term::Const(value) => Ok(Term::Const(*value)),
            Term::Var(position) => Ok(Term::Var(*position)),
            Term::App(operator, arguments) => {
                let arguments = arguments.copy(alloc)?;
                Ok(Term::App(*operator, arguments))
            }
            Term::Call(function, arguments) => {
                let arguments = arguments.copy(alloc)?;
                Ok(Term::Call(*function, arguments))
            }
            Term::Let(bound, inner) => {
                let bound = bound.copy(alloc)?;
                let inner = inner.copy(alloc)?;
                Ok(Term::Let(bound, Box::new(alloc, inner)?))
            }
        }
    }

    /// Whether the two are the same term.
    #[cycle(equals)]
    pub fn equals(&self, other: &Term<T>) -> bool
        ensures { IsTrue result ↔ expr_of T.denotes self.now ≡ expr_of T.denotes other.now }
    {
        match (self, other) {
            (Term::Const(a), Term::Const(b)) => same_value::<T>(a, b),
            (Term::Var(a), Term::Var(b)) => *a == *b,
            (Term::App(f, a), Term::App(g, b)) => f.equals(g) && a.equals(b),
            (Term::Call(f, a), Term::Call(g, b)) => f.equals(g) && a.equals(b),
            (Term::Let(a, s), Term::Let(b, t)) => a.equals(b) && s.equals(t),
            _ => false,
        }
    }
}

impl<T: Theory> Terms<T> {
    /// The number of nodes of all terms, at most `cap`.
    #[cycle(size)]
    fn size(&self, cap: u64) -> u64
        ensures { result ≡ min cap (nodes_of (exprs_of T.denotes self.now.items.items)) }
    {
        let mut total = 0u64;
        for term in &self.items {
            total = total.saturating_add(term.size(cap)).min(cap);
        }
        total
    }

    /// The greatest depth of the terms, at most `cap`.
    #[cycle(depth)]
    fn depth(&self, cap: u64) -> u64
        ensures { result ≡ min cap (depth_of (exprs_of T.denotes self.now.items.items)) }
    {
        let mut greatest = 0u64;
        for term in &self.items {
            greatest = greatest.max(term.depth(cap));
        }
        greatest
    }

    /// Equal terms, in memory of their own.
    #[cycle(copy)]
    fn copy(&self, alloc: Global) -> Result<Terms<T>, Want>
        ensures { IfOk result (λ terms. exprs_of T.denotes terms.items.items ≡
            exprs_of T.denotes self.now.items.items) }
    {
        let mut items = Vec::with_capacity(alloc, self.items.len())?;
        for term in &self.items {
            items.push(term.copy(alloc)?)?;
        }
        Ok(Terms { items })
    }

    /// Whether the two are the same terms, in the same order.
    #[cycle(equals)]
    fn equals(&self, other: &Terms<T>) -> bool
        ensures { IsTrue result ↔ exprs_of T.denotes self.now.items.items ≡ exprs_of T.denotes other.now.items.items }
    {
        if self.len() != other.len() {
            return false;
        }
        for (a, b) in self.items.iter().zip(&other.items) {
            if !a.equals(b) {
                return false;
            }
        }
        true
    }
}

/// A definition: its arguments' sorts, its value's sort, and its body over the arguments.
#[derive(Drop)]
pub struct Def<T: Theory> {
    /// The sorts of its arguments.
    pub args: Seq<Sort>,
    /// The sort of its value.
    pub sort: Sort,
    /// Its body, in which `Var(i)` is argument `i`.
    pub body: Term<T>,
}

/// Definitions, each of which calls only those before it.
pub type Defs<T> = Seq<Def<T>>;

/// A body for each function to be found.
pub type Bodies<T> = Seq<Term<T>>;
