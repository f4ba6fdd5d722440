// The tree of a way and what stands at its end.
ghost use Rattle.std.specs.Prelude.{◌≡◌, IfOk};
ghost use Rattle.sy_intsolve_cuts.specs.Stored.{grown_tree_of, layer_of, layers_of};
ghost use Rattle.sy_intsolve_cuts.specs.Steps as spec;

use crate::fork::forked;
use crate::step::Step;
use std::alloc::Global;
use sy_linear_known::Tree;
use sy_seq::Want;

/// The tree with the last step's node at its root, over the tree below it. `Want` comes where memory runs out, and
/// nowhere else.
pub fn wrapped(alloc: Global, step: Step, below: Tree) -> Result<Tree, Want>
    ensures { IfOk result (λ tree. grown_tree_of tree ≡ spec.wrapped (layer_of step) (grown_tree_of below)) }
{
    match step {
        Step::Left(fork, point, right) => forked(alloc, fork, point, below, right),
        Step::Right(fork, point, left) => forked(alloc, fork, point, left, below),
        Step::Under(multipliers, divisor, point) => {
            let inner = Box::new(alloc, below)?;
            Ok(Tree::Cut(multipliers, divisor, point, inner))
        }
    }
}

/// The whole tree whose way from the root has these steps, over the tree at its end. `Want` comes where memory runs
/// out, and nowhere else.
pub fn plugged(alloc: Global, steps: Vec<Step>, end: Tree) -> Result<Tree, Want>
    ensures { IfOk result (λ tree. grown_tree_of tree ≡ spec.plugged (layers_of steps.items) (grown_tree_of end)) }
{
    let mut left = steps;
    let mut tree = end;
    while let Some(step) = left.pop() {
        tree = wrapped(alloc, step, tree)?;
    }
    Ok(tree)
}
