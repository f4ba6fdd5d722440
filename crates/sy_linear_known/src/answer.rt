// Answers on queries.
use crate::path::Test;

/// What a path tells of a query.
#[derive(Drop)]
pub enum Known {
    /// The query is true at each assignment that meets the path.
    True,
    /// The query is false at each assignment that meets the path.
    False,
    /// The first test, in preorder, that the path doesn't answer.
    Undecided(Test),
    /// The first node, in preorder, at which a coefficient or a constant leaves 128 bits, or which isn't linear.
    OutOfRange(u32),
}
