// The size of a tree.
ghost use Rattle.std.specs.Prelude.{◌≡◌, min};
ghost use Rattle.sy_linear_known.specs.Stored.{tree_shape_of};
ghost use Rattle.sy_linear.specs.Judging as spec;

use sy_linear_known::Tree;

/// The number of nodes, at most `cap`.
pub(crate) fn count_nodes(tree: &Tree, cap: u64) -> u64
    ensures { result ≡ min cap (spec.size (tree_shape_of tree.now)) }
{
    let below = match tree {
        Tree::Split(_, _, left, right) => {
            count_nodes(left, cap).saturating_add(count_nodes(right, cap))
        }
        Tree::Branch(_, _, _, left, right) => {
            count_nodes(left, cap).saturating_add(count_nodes(right, cap))
        }
        Tree::Cut(_, _, _, inner) => count_nodes(inner, cap),
        Tree::Farkas(_) => 0,
        Tree::Shown => 0,
        Tree::Unfinished => 0,
    };
    below.saturating_add(1).min(cap)
}
