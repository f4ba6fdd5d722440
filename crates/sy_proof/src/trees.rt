// Refutation trees read from text.
ghost use Rattle.std.specs.Prelude.{◌≡◌, ◌<◌, ◌∷◌, ◌↔◌, [], Some, None, IfOk, IsTrue, MatchOption, MatchBool, count_by, length, true};
ghost use Rattle.sy_text_items.specs.Views.{item_of};
ghost use Rattle.sy_linear_known.specs.Stored.{tree_shape_of};
ghost use Rattle.sy_linear_known.specs.Trees.{TreeShape};
ghost use Rattle.sy_proof.specs.Growing.{grown, stacked};
ghost use Rattle.sy_proof.specs.Nodes as spec;
ghost use Rattle.sy_proof.specs.Trees.{nodes_of, SpellsTree};

use crate::nodes::{Node, read_nodes};
use crate::words::behind_word;
use std::alloc::Global;
use sy_linear_known::Tree;
use sy_seq::{Seq, Want};
use sy_text_items::Sexp;

/// The most inner nodes that a tree which is read may have.
const MOST_INNER: usize = 8000;

/// The tree that the item is: `(tree i ..)`, its nodes in preorder, at most 8,000 of them inner ones. `None` exactly
/// where the item isn't of this form. The points of the tree are empty.
pub fn read_tree(alloc: Global, s: &Sexp) -> Result<Option<Tree>, Want>
    ensures { IfOk result (λ found. MatchOption found
        ((tree : TreeShape) → SpellsTree (item_of s.now) tree → ⊥)
        (λ tree. SpellsTree (item_of s.now) (tree_shape_of tree))) }
{
    let Some(items) = behind_word(s, b"tree") else {
        return Ok(None);
    };
    let Some(nodes) = read_nodes(alloc, items)? else {
        return Ok(None);
    };
    if count_inner(nodes.as_slice()) > MOST_INNER {
        return Ok(None);
    }
    build(alloc, nodes)
}

/// Whether a tree is below the node.
fn is_inner(node: &Node) -> bool
    ensures { result ≡ spec.is_inner node.now }
{
    match node {
        Node::Split(_) | Node::Branch(_, _) | Node::Cut(_, _) => true,
        Node::Farkas(_) | Node::Shown | Node::Unfinished => false,
    }
}

/// How many inner nodes there are.
fn count_inner(nodes: &[Node]) -> usize
    ensures { result ≡ count_by spec.is_inner nodes.now }
{
    nodes.iter().filter(|node| is_inner(node)).count()
}

/// The tree whose nodes in preorder these are; `None` exactly where they are those of no tree.
fn build(alloc: Global, nodes: Vec<Node>) -> Result<Option<Tree>, Want>
    ensures { IfOk result (λ found. MatchOption found
        ((tree : TreeShape) → nodes.items ≡ nodes_of tree → ⊥)
        (λ tree. nodes.items ≡ nodes_of (tree_shape_of tree))) }
{
    let mut left = nodes;
    let mut trees = Vec::new(alloc);
    while let Some(node) = left.pop() {
        if !grow(alloc, node, &mut trees)? {
            return Ok(None);
        }
    }
    Ok(only(trees))
}

/// The only tree; `None` exactly where there is none or more than one.
fn only(trees: Vec<Tree>) -> Option<Tree>
    ensures { MatchOption result
        ((tree : TreeShape) → stacked trees.items ≡ tree ∷ [] → ⊥)
        (λ tree. stacked trees.items ≡ tree_shape_of tree ∷ []) }
{
    let mut trees = trees;
    let tree = trees.pop()?;
    if trees.is_empty() { Some(tree) } else { None }
}

/// Puts the node on the last trees, as many as are below it; whether there are so many.
fn grow(alloc: Global, node: Node, trees: &mut Vec<Tree>) -> Result<bool, Want>
    ensures { IfOk result (λ done. MatchBool done
        (grown node (stacked trees.old.items) ≡ Some (stacked trees.new.items))
        (grown node (stacked trees.old.items) ≡ None)) }
{
    let Some(tree) = rooted(alloc, node, trees)? else {
        return Ok(false);
    };
    trees.push(tree)?;
    Ok(true)
}

/// The tree with this node at its root, over the last trees, the left one last; `None` exactly where there are too few.
fn rooted(alloc: Global, node: Node, trees: &mut Vec<Tree>) -> Result<Option<Tree>, Want>
    ensures { IfOk result (λ found. MatchOption found
        (grown node (stacked trees.old.items) ≡ None)
        (λ tree. grown node (stacked trees.old.items) ≡ Some (tree_shape_of tree ∷ stacked trees.new.items))) }
{
    match node {
        Node::Split(test) => {
            let Some((left, right)) = last_two(trees) else {
                return Ok(None);
            };
            let left = Box::new(alloc, left)?;
            let right = Box::new(alloc, right)?;
            Ok(Some(Tree::Split(test, Seq::new(alloc), left, right)))
        }
        Node::Branch(variable, bound) => {
            let Some((left, right)) = last_two(trees) else {
                return Ok(None);
            };
            let left = Box::new(alloc, left)?;
            let right = Box::new(alloc, right)?;
            Ok(Some(Tree::Branch(variable, bound, Seq::new(alloc), left, right)))
        }
        Node::Cut(divisor, multipliers) => {
            let Some(inner) = trees.pop() else {
                return Ok(None);
            };
            let inner = Box::new(alloc, inner)?;
            Ok(Some(Tree::Cut(multipliers, divisor, Seq::new(alloc), inner)))
        }
        Node::Farkas(multipliers) => Ok(Some(Tree::Farkas(multipliers))),
        Node::Shown => Ok(Some(Tree::Shown)),
        Node::Unfinished => Ok(Some(Tree::Unfinished)),
    }
}

/// The last tree and the one before it.
fn last_two(trees: &mut Vec<Tree>) -> Option<(Tree, Tree)>
    ensures { MatchOption result
        (length (stacked trees.old.items) < 2)
        (λ two. stacked trees.old.items ≡ tree_shape_of two.0 ∷ (tree_shape_of two.1 ∷ stacked trees.new.items)) }
{
    let last = trees.pop()?;
    let before = trees.pop()?;
    Some((last, before))
}
