// What shows that a budget was met.
ghost use Rattle.std.specs.Prelude.{◌≡◌};
ghost use Rattle.sy_intsolve_cuts.specs.Budgets.{budget};

use sy_linear_known::{Path, Tree};
use sy_query_limits::FailName;
use sy_simplex::Run;

/// A number that left 128 bits under a path.
#[derive(Drop)]
pub enum IntRange {
    /// A form of the query isn't built at the node of this number.
    Known(Path, u32),
    /// An operation of the simplex method doesn't fit after these steps.
    Simplex(Path, Run),
}

/// What is left of a search whose budget was met: the tree so far, and, but for the nodes, the open leaf at which it
/// was.
#[derive(Drop)]
pub enum IntSpent {
    /// The tree has as many inner nodes as allowed.
    Nodes(Tree),
    /// The simplex method took as many steps as allowed under the path.
    Pivots(Tree, Path, Run),
    /// A number left 128 bits.
    Range(Tree, IntRange),
}

impl IntSpent {
    /// The budget that was met.
    pub fn name(&self) -> FailName
        ensures { result ≡ budget self.now }
    {
        match self {
            IntSpent::Nodes(_) => FailName::Nodes,
            IntSpent::Pivots(_, _, _) => FailName::Pivots,
            IntSpent::Range(_, _) => FailName::Range,
        }
    }
}
