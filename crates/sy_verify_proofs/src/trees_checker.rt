// The checker of refutation trees in text.
ghost use Rattle.std.specs.Prelude.{IfOk};
ghost use Rattle.sy_terms.specs.Values.{Whole};
ghost use Rattle.sy_query_base.specs.Asked.{query_of};
ghost use Rattle.sy_linear.specs.Accepted.{linear_of};
ghost use Rattle.sy_linear_known.specs.Stored.{linear_query_of, tree_shape_of};
ghost use Rattle.sy_verify_proofs.specs.Trees as trees;
ghost use Rattle.sy_verify_proofs.specs.TreesSoundness.{sound};

use std::alloc::Global;
use sy_linear::{CheckEnd, Tree, check_tree, is_countable, is_numbered};
use sy_lower::lower;
use sy_meaning_integers::IntTheory;
use sy_proof::read_tree;
use sy_query_base::Query;
use sy_terms::Want;
use sy_text_items::Sexp;
use sy_verify::{Checking, ProofChecker};

/// The checker of refutation trees, for queries over the integers. An item proves a query where it spells a tree that
/// refutes the query without division, remainder and absolute value. A query of 2^31 nodes
/// or variables is answered as want of memory, and so is a tree of 2^32 nodes.
#[derive(Clone, Copy, Debug, PartialEq, Eq)]
pub struct TreeChecker;

impl ProofChecker<IntTheory> for TreeChecker {
    ghost proves = { trees.TreeProves };

    ghost fails = { trees.TreeFails };

    ghost overflows = { trees.TreeOverflows };

    fn check(alloc: Global, query: &Query<IntTheory>, proof: &Sexp) -> Result<Checking, Want> {
        let Some(tree) = read_tree(alloc, proof)? else {
            return Ok(Checking::Fails);
        };
        let found = judged(alloc, query, tree)?;
        Ok(found)
    }

    ghost sound = { sound };
}

/// What is found of the tree for the query, which is lowered to one of linear arithmetic.
fn judged(alloc: Global, query: &Query<IntTheory>, tree: Tree) -> Result<Checking, Want>
    ensures { IfOk result (trees.IsTreeChecking (linear_of (query_of Whole query.now)) (tree_shape_of tree)) }
{
    let lowered = lower(alloc, query)?;
    let answer = judged_linear(alloc, &lowered, &tree);
    drop(lowered);
    drop(tree);
    answer
}

/// What is found of the tree for the query of linear arithmetic.
fn judged_linear(alloc: Global, query: &Query<IntTheory>, tree: &Tree) -> Result<Checking, Want>
    ensures { IfOk result (trees.IsTreeChecking (linear_query_of query.now) (tree_shape_of tree.now)) }
{
    if !is_numbered(query) || !is_countable(tree) {
        return Err(Want {});
    }
    match check_tree(alloc, query, tree) {
        Ok(true) => Ok(Checking::Proves),
        Ok(false) => Ok(Checking::Fails),
        Err(CheckEnd::Range(node)) => Ok(Checking::Overflows(node)),
        Err(CheckEnd::Want) => Err(Want {}),
    }
}
