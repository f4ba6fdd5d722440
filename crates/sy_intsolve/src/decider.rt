// The solver.
ghost use Rattle.sy_intsolve_cuts.specs.Budgets.{budget};
ghost use Rattle.sy_intsolve.specs.Proofs as proofs;
ghost use Rattle.sy_intsolve.specs.Soundness.{sound};

use crate::lowered::solved;
use std::alloc::Global;
use sy_intsolve_cuts::IntSpent;
use sy_linear_known::Tree;
use sy_meaning_integers::IntTheory;
use sy_query::corner_model;
use sy_query_base::{Decide, Query, Verdict};
use sy_query_limits::{FailName, Limits};
use sy_terms::Want;

/// A solver of queries of linear arithmetic over the integers with `div`, `mod` and `abs`. It tries up to 128
/// assignments at which queries are often true; then it lowers the query to one without these operators, and grows a
/// tree that splits on open tests and branches on values of variables, until the tree refutes the lowered query or an
/// assignment satisfies it, with at most as many inner nodes as the limit `nodes` and as many steps of the simplex
/// method at a leaf as the limit `pivots`.
///
/// Where none of these assignments satisfies the query and its lowering has 2^31 nodes or variables, it is answered
/// as out of memory.
#[derive(Clone, Copy, Debug, PartialEq, Eq)]
pub struct IntDecide;

impl IntDecide {
    /// The solver. It keeps nothing from one query to the next.
    pub fn new() -> IntDecide {
        IntDecide
    }
}

impl Decide<IntTheory> for IntDecide {
    type Proof = Tree;

    type Spent = IntSpent;

    ghost accepted = { proofs.Accepted };

    ghost budget = { budget };

    ghost shows = { proofs.ShowsFor };

    fn decide(
        &mut self,
        alloc: Global,
        query: &Query<IntTheory>,
        limits: &Limits,
    ) -> Result<Verdict<IntTheory, Tree, IntSpent>, Want> {
        if let Some(values) = corner_model(alloc, query)? {
            return Ok(Verdict::Model(values));
        }
        solved(alloc, query, limits)
    }

    fn name_of(spent: &IntSpent) -> FailName {
        spent.name()
    }

    ghost sound = { sound };
}
