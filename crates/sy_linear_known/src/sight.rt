// What a path tells of a term.
ghost use Rattle.std.specs.Prelude.{◌≡◌, IfOk, ◌∷◌, [], cond};
ghost use Rattle.std.specs.List.{list_any, list_all};
ghost use Rattle.sy_linear_known.specs.Seen.{seen_as, nothing_found, with_next, node_noted, after_bound};
ghost use Rattle.sy_linear_known.specs.Sights.{is_true, is_false, is_open, all_of, any_of, sight_opposite, told, unfit, or_else, both_nodes, turned, of_form};

use crate::form::Form;
use crate::path::Test;
use std::alloc::Global;
use sy_seq::{Seq, Want};

/// What a path tells of a term.
#[derive(Drop)]
pub(crate) enum Sight {
    /// The term's value is that of the form.
    Linear(Form),
    /// The term's truth value.
    Settled(bool),
    /// Nothing.
    Open,
}

/// What a path tells of an application by what it tells of the arguments, and which tests that takes.
#[derive(Drop)]
pub(crate) struct Node {
    pub(crate) sight: Sight,
    /// The first test that the path doesn't answer.
    pub(crate) unknown: Option<Test>,
    /// Whether all forms that are built here fit 128 bits.
    pub(crate) fits: bool,
}

/// What a walk through a term finds.
#[derive(Drop)]
pub(crate) struct Seen {
    pub(crate) sight: Sight,
    /// The first test, in preorder, that the path doesn't answer.
    pub(crate) unknown: Option<Test>,
    /// The first node, in preorder, at which a form doesn't fit.
    pub(crate) misfit: Option<u32>,
}

/// What a walk through arguments finds.
#[derive(Drop)]
pub(crate) struct Found {
    pub(crate) sights: Seq<Sight>,
    /// The first test, in preorder, that the path doesn't answer.
    pub(crate) unknown: Option<Test>,
    /// The first node, in preorder, at which a form doesn't fit.
    pub(crate) misfit: Option<u32>,
}

impl Sight {
    /// Whether the term is known true.
    pub(crate) fn is_true(&self) -> bool
        ensures { result ≡ is_true self.now }
    {
        matches!(self, Sight::Settled(true))
    }

    /// Whether the term is known false.
    pub(crate) fn is_false(&self) -> bool
        ensures { result ≡ is_false self.now }
    {
        matches!(self, Sight::Settled(false))
    }

    /// Whether the term is known to have this truth value.
    pub(crate) fn is_settled(&self, truth: bool) -> bool
        ensures { result ≡ cond truth is_true is_false self.now }
    {
        if truth {
            self.is_true()
        } else {
            self.is_false()
        }
    }

    /// Whether nothing is known of the term.
    pub(crate) fn is_open(&self) -> bool
        ensures { result ≡ is_open self.now }
    {
        matches!(self, Sight::Open)
    }

    /// The same.
    pub(crate) fn copy(&self, alloc: Global) -> Result<Sight, Want>
        ensures { IfOk result (λ sight. sight ≡ self.now) }
    {
        match self {
            Sight::Linear(form) => {
                let form = form.copy(alloc)?;
                Ok(Sight::Linear(form))
            }
            Sight::Settled(truth) => Ok(Sight::Settled(*truth)),
            Sight::Open => Ok(Sight::Open),
        }
    }
}

/// Whether one is known to have this truth value.
fn some_settled(sights: &[Sight], truth: bool) -> bool
    ensures { result ≡ list_any (cond truth is_true is_false) sights.now }
{
    for sight in sights {
        if sight.is_settled(truth) {
            return true;
        }
    }
    false
}

/// Whether all are known to have this truth value.
fn each_settled(sights: &[Sight], truth: bool) -> bool
    ensures { result ≡ list_all (cond truth is_true is_false) sights.now }
{
    for sight in sights {
        if !sight.is_settled(truth) {
            return false;
        }
    }
    true
}

/// False where one is known false, true where all are known true.
pub(crate) fn all_of(sights: &[Sight]) -> Sight
    ensures { result ≡ all_of sights.now }
{
    if some_settled(sights, false) {
        Sight::Settled(false)
    } else if each_settled(sights, true) {
        Sight::Settled(true)
    } else {
        Sight::Open
    }
}

/// True where one is known true, false where all are known false.
pub(crate) fn any_of(sights: &[Sight]) -> Sight
    ensures { result ≡ any_of sights.now }
{
    if some_settled(sights, true) {
        Sight::Settled(true)
    } else if each_settled(sights, false) {
        Sight::Settled(false)
    } else {
        Sight::Open
    }
}

/// What is told of the negation.
fn opposite(sight: &Sight) -> Sight
    ensures { result ≡ sight_opposite sight.now }
{
    match sight {
        Sight::Settled(truth) => Sight::Settled(!*truth),
        Sight::Linear(_) | Sight::Open => Sight::Open,
    }
}

/// Both: false where one is known false, true where both are known true.
fn both_of(a: &Sight, b: &Sight) -> Sight
    ensures { result ≡ all_of (a.now ∷ b.now ∷ []) }
{
    if a.is_false() || b.is_false() {
        Sight::Settled(false)
    } else if a.is_true() && b.is_true() {
        Sight::Settled(true)
    } else {
        Sight::Open
    }
}

/// The first, or else the other.
pub(crate) fn or_else<A: Drop>(first: Option<A>, other: Option<A>) -> Option<A>
    ensures { result ≡ or_else first other }
{
    match first {
        Some(value) => Some(value),
        None => other,
    }
}

impl Node {
    /// A node of which this is told, without a test.
    pub(crate) fn told(sight: Sight) -> Node
        ensures { result ≡ told sight }
    {
        Node {
            sight,
            unknown: None,
            fits: true,
        }
    }

    /// A node at which a form doesn't fit.
    pub(crate) fn unfit() -> Node
        ensures { result ≡ unfit }
    {
        Node {
            sight: Sight::Open,
            unknown: None,
            fits: false,
        }
    }

    /// The form, where it fits.
    pub(crate) fn of_form(form: Option<Form>) -> Node
        ensures { result ≡ of_form form }
    {
        match form {
            Some(form) => Node::told(Sight::Linear(form)),
            None => Node::unfit(),
        }
    }

    /// Both, this one before the other.
    pub(crate) fn both(self, other: Node) -> Node
        ensures { result ≡ both_nodes self other }
    {
        let sight = both_of(&self.sight, &other.sight);
        drop(self.sight);
        drop(other.sight);
        Node {
            sight,
            unknown: or_else(self.unknown, other.unknown),
            fits: self.fits && other.fits,
        }
    }

    /// The negation, by the same tests.
    pub(crate) fn turned(self) -> Node
        ensures { result ≡ turned self }
    {
        let sight = opposite(&self.sight);
        drop(self.sight);
        Node {
            sight,
            unknown: self.unknown,
            fits: self.fits,
        }
    }
}

impl Seen {
    /// A leaf of which this is told.
    pub(crate) fn leaf(sight: Sight) -> Seen
        ensures { result ≡ seen_as sight }
    {
        Seen {
            sight,
            unknown: None,
            misfit: None,
        }
    }

    /// A node of this number that isn't linear, below which nothing is looked at.
    pub(crate) fn unfit(at: u32) -> Seen
        ensures { result ≡ node_noted at unfit nothing_found }
    {
        Seen {
            sight: Sight::Open,
            unknown: None,
            misfit: Some(at),
        }
    }

    /// What is found at the node of this number and below it.
    pub(crate) fn noted(at: u32, node: Node, below: Found) -> Seen
        ensures { result ≡ node_noted at node below }
    {
        let misfit = if node.fits { None } else { Some(at) };
        Seen {
            sight: node.sight,
            unknown: or_else(node.unknown, below.unknown),
            misfit: or_else(misfit, below.misfit),
        }
    }

    /// What is found in bound terms and then in the term that they are bound in.
    pub(crate) fn after(below: Found, inner: Seen) -> Seen
        ensures { result ≡ after_bound below inner }
    {
        Seen {
            sight: inner.sight,
            unknown: or_else(below.unknown, inner.unknown),
            misfit: or_else(below.misfit, inner.misfit),
        }
    }
}

impl Found {
    /// Nothing yet. It takes no memory.
    pub(crate) fn new(alloc: Global) -> Found
        ensures { result ≡ nothing_found }
    {
        Found {
            sights: Seq::new(alloc),
            unknown: None,
            misfit: None,
        }
    }

    /// With one argument more.
    pub(crate) fn with_next(self, seen: Seen) -> Result<Found, Want>
        ensures { IfOk result (λ found. found ≡ with_next self seen) }
    {
        let unknown = or_else(self.unknown, seen.unknown);
        let misfit = or_else(self.misfit, seen.misfit);
        let mut sights = self.sights;
        match sights.push(seen.sight) {
            Ok(()) => Ok(Found {
                sights,
                unknown,
                misfit,
            }),
            Err(want) => {
                drop(unknown);
                Err(want)
            }
        }
    }
}
