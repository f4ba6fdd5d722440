// Inner nodes with two sides.
ghost use Rattle.std.specs.Prelude.{◌≡◌, IfOk};
ghost use Rattle.sy_intsolve_cuts.specs.Growing.{Forked};
ghost use Rattle.sy_intsolve_cuts.specs.Stored.{grown_tree_of};

use std::alloc::Global;
use sy_frac::Frac;
use sy_linear_known::{Test, Tree};
use sy_seq::{Seq, Want};

/// What an inner node with two sides asks of an assignment.
#[derive(Drop)]
pub enum Fork {
    /// Whether the test holds: so on the left, not so on the right.
    Split(Test),
    /// Whether the variable is at most the bound: so on the left, above it on the right.
    Branch(u32, i128),
}

/// The tree with this node at its root, at this point, over the two sides. `Want` comes where memory runs out, and
/// nowhere else.
pub fn forked(
    alloc: Global,
    fork: Fork,
    point: Seq<Frac>,
    left: Tree,
    right: Tree,
) -> Result<Tree, Want>
    ensures { IfOk result (λ tree. grown_tree_of tree ≡ Forked fork point (grown_tree_of left) (grown_tree_of right)) }
{
    let left = Box::new(alloc, left)?;
    let right = Box::new(alloc, right)?;
    match fork {
        Fork::Split(test) => Ok(Tree::Split(test, point, left, right)),
        Fork::Branch(variable, bound) => Ok(Tree::Branch(variable, bound, point, left, right)),
    }
}
