// The way from the root of a tree to the leaf at which a search goes on.
ghost use Rattle.std.specs.Prelude.{◌≡◌, ◌∷◌, ◌++◌, [], List, not, IfSome};
ghost use Rattle.sy_linear_known.specs.declared.path.Fact.{Fact};
ghost use Rattle.sy_linear_known.specs.Seen.{LinearQuery};
ghost use Rattle.sy_intsolve_cuts.specs.declared.step.Order.{Order as OrderOf};
ghost use Rattle.sy_intsolve_cuts.specs.Growing.{fork_fact, IsFork};
ghost use Rattle.sy_intsolve_cuts.specs.Steps.{side_layer, IsOtherSide, IsLayer};
ghost use Rattle.sy_intsolve_cuts.specs.Stored.{grown_tree_of, side_of, layer_of};

use crate::fork::Fork;
use sy_frac::Frac;
use sy_linear_known::Tree;
use sy_seq::Seq;

/// Which tests a search splits on.
#[derive(Clone, Copy, Debug, PartialEq, Eq)]
pub enum Order {
    /// The first one that is open.
    First,
    /// Any.
    Free,
}

/// An inner node above the leaf, and the side of it that doesn't hold the leaf; that is `Unfinished` until it is begun.
#[derive(Drop)]
pub enum Step {
    /// The leaf lies on the left; the tree is the right side.
    Left(Fork, Seq<Frac>, Tree),
    /// The leaf lies on the right; the tree is the left side.
    Right(Fork, Seq<Frac>, Tree),
    /// The leaf lies below a cut with these multipliers and divisor, made at this point.
    Under(Seq<Frac>, i128, Seq<Frac>),
}

/// The side, where there is one; else it isn't begun.
fn begun_or_not(side: Option<Tree>) -> Tree
    ensures { grown_tree_of result ≡ side_of side }
{
    match side {
        Some(tree) => tree,
        None => Tree::Unfinished,
    }
}

/// The step to the left side, or else to the right one, where the tree is the other side.
fn step_to(left: bool, fork: Fork, point: Seq<Frac>, other: Tree) -> Step
    ensures { layer_of result ≡ side_layer left fork point (grown_tree_of other) }
{
    if left {
        Step::Left(fork, point, other)
    } else {
        Step::Right(fork, point, other)
    }
}

impl Step {
    /// The step to the left side of the fork, or else to the right one, beside the other side, which isn't begun where
    /// there is none. A step to a side of a fork stands where the other side, if there is one, does: a side that isn't
    /// there is never taken as shown.
    pub fn to_side(left: bool, fork: Fork, point: Seq<Frac>, other: Option<Tree>) -> Step
        ensures layer { layer_of result ≡ side_layer left fork point (side_of other) }
        ensures stands { (order : OrderOf) (query : LinearQuery) (path : List Fact) →
            IsFork order query path fork point → IfSome other (λ tree.
            IsOtherSide order query (path ++ fork_fact (not left) fork ∷ []) (grown_tree_of tree)) →
            IsLayer order query path (layer_of result) (fork_fact left fork) }
    {
        let beside = begun_or_not(other);
        step_to(left, fork, point, beside)
    }
}
