// A turn at a closed tree: back to the nearest side that isn't begun.
ghost use Rattle.std.specs.Prelude.{◌≡◌, ◌≤◌, IfOk};
ghost use Rattle.sy_linear_known.specs.Stored.{linear_query_of};
ghost use Rattle.sy_query_limits.specs.declared.Limits.{Limits};
ghost use Rattle.sy_intsolve_cuts.specs.declared.step.Order.{Order};
ghost use Rattle.sy_intsolve_cuts.specs.Stored.{grown_tree_of, layer_of};
ghost use Rattle.sy_intsolve.specs.Ways.{is_unfinished, IsClosedTree};
ghost use Rattle.sy_intsolve.specs.States.{ClosesLayer, IsTurn, room_closed};

use crate::fork::enter;
use crate::state::{State, Turn};
use crate::way::{Way, without_last};
use std::alloc::Global;
use sy_frac::Frac;
use sy_intsolve_cuts::{Fork, Step, wrapped};
use sy_linear_known::Tree;
use sy_meaning_integers::IntTheory;
use sy_query_base::{Query, Verdict};
use sy_seq::{Seq, Want};

/// What a closed tree at the end of a step makes.
#[derive(Drop)]
pub(crate) enum Beside {
    /// The other side isn't begun: the fork, its point, whether that side is the left one, and the tree.
    Side(Fork, Seq<Frac>, bool, Tree),
    /// The other side is closed too, or there is none: the step, and the tree.
    Whole(Step, Tree),
}

/// Whether nothing is shown.
fn is_unbegun(tree: &Tree) -> bool
    ensures { result ≡ is_unfinished (grown_tree_of tree.now) }
{
    match tree {
        Tree::Unfinished => true,
        Tree::Split(_, _, _, _)
        | Tree::Branch(_, _, _, _, _)
        | Tree::Cut(_, _, _, _)
        | Tree::Farkas(_)
        | Tree::Shown => false,
    }
}

/// What the tree at the end of the step makes.
fn turned(step: Step, tree: Tree) -> Beside
    ensures { ClosesLayer (layer_of step) (grown_tree_of tree) result }
{
    match step {
        Step::Left(fork, point, right) => {
            if is_unbegun(&right) {
                drop(right);
                Beside::Side(fork, point, false, tree)
            } else {
                Beside::Whole(Step::Left(fork, point, right), tree)
            }
        }
        Step::Right(fork, point, left) => {
            if is_unbegun(&left) {
                drop(left);
                Beside::Side(fork, point, true, tree)
            } else {
                Beside::Whole(Step::Right(fork, point, left), tree)
            }
        }
        Step::Under(multipliers, divisor, point) => {
            Beside::Whole(Step::Under(multipliers, divisor, point), tree)
        }
    }
}

/// A turn at a closed tree at the end of the way. With no step above, the tree is the whole one; else the step's other
/// side is entered, where it isn't begun, or the step's node stands round both.
pub(crate) fn back(
    alloc: Global,
    query: &Query<IntTheory>,
    way: Way,
    tree: Tree,
) -> Result<Turn, Want>
    requires { (order : Order) × IsClosedTree order (linear_query_of query.now) way (grown_tree_of tree) }
    ensures { (order : Order) (limits : Limits) →
        IsClosedTree order (linear_query_of query.now) way (grown_tree_of tree) → way.inner ≤ limits.nodes →
        IfOk result (IsTurn order (linear_query_of query.now) limits (room_closed limits.nodes way)) }
{
    let Way {
        facts,
        mut steps,
        inner,
    } = way;
    let Some(step) = steps.pop() else {
        return Ok(Turn::Over(Verdict::Never(tree)));
    };
    let above = Way {
        facts: without_last(facts),
        steps,
        inner,
    };
    match turned(step, tree) {
        Beside::Side(fork, point, left, other) => {
            let state = enter(alloc, query, above, fork, point, left, Some(other))?;
            Ok(Turn::On(state))
        }
        Beside::Whole(whole, below) => {
            let tree = wrapped(alloc, whole, below)?;
            Ok(Turn::On(State::Closed(above, tree)))
        }
    }
}
