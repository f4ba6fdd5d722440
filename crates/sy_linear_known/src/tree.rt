// Refutation trees.
ghost use Rattle.std.specs.Prelude.{◌≡◌};

use crate::path::Test;
use std::alloc::AllocFailed;
use sy_frac::Frac;
use sy_seq::{Seq, Want};

/// A tree that refutes a query under a path, which is empty at the root. The list of fractions of `Farkas` and the
/// first one of `Cut` have a multiplier for each `AtLeast` fact of the path, in order. The other lists are the
/// rational point of an inner node, with an entry for each variable of the query, 0 for one of sort `Bool`.
#[derive(Drop)]
pub enum Tree {
    /// The path with the test on the left, with its negation on the right.
    Split(Test, Seq<Frac>, Box<Tree>, Box<Tree>),
    /// The path with the variable at most the bound on the left, above it on the right.
    Branch(u32, i128, Seq<Frac>, Box<Tree>, Box<Tree>),
    /// The path with the combination of its forms, divided by the divisor and rounded down.
    Cut(Seq<Frac>, i128, Seq<Frac>, Box<Tree>),
    /// The combination of the path's forms is a negative constant.
    Farkas(Seq<Frac>),
    /// The path makes the query false.
    Shown,
    /// Nothing is shown here.
    Unfinished,
}

/// Why a tree isn't judged.
#[derive(Clone, Copy)]
pub enum CheckEnd {
    /// An operation at the node of this number, in preorder, leaves 128 bits.
    Range(u32),
    Want,
}

impl From<Want> for CheckEnd {
    ghost use Rattle.sy_linear_known.specs.declared.tree.CheckEnd.TheVariants.{Want as WantOfMemory};

    ghost from_gives = { λ _ end. end ≡ WantOfMemory };

    fn from(_: Want) -> CheckEnd {
        CheckEnd::Want
    }
}

impl<X: Drop> From<AllocFailed<X>> for CheckEnd {
    ghost use Rattle.sy_linear_known.specs.declared.tree.CheckEnd.TheVariants.{Want as WantOfMemory};

    ghost from_gives = { λ _ end. end ≡ WantOfMemory };

    fn from(_: AllocFailed<X>) -> CheckEnd {
        CheckEnd::Want
    }
}
