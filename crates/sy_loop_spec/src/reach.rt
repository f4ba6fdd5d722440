// How far a search goes.

/// Which bodies a search counts as in bound.
#[derive(Clone, Copy)]
pub enum Reach {
    /// Bodies whose sizes sum to at most the bound.
    Sizes,
    /// Those, and conditional trees whose parts are each of a size of at most the bound.
    Joins,
}
