// Conditional trees.
use sy_seq::Seq;

/// A conditional tree: the number of a leaf, or the number of a condition
/// with the tree where it holds and the tree where it doesn't.
#[derive(Drop)]
pub enum Choice {
    Leaf(u32),
    Test(u32, Box<Choice>, Box<Choice>),
}

/// A tree that serves all points, or a class of points that no tree can serve.
#[derive(Drop)]
pub enum Joined {
    Tree(Choice),
    Uncovered(Seq<u32>),
}
