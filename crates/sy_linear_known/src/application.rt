// What a path tells of an application.
ghost use Rattle.std.specs.Prelude.{◌≡◌, IfOk, true};
ghost use Rattle.sy_linear_known.specs.Sights.{operator_applied};
ghost use Rattle.sy_linear_known.specs.Fitting.{sight_fits, all_fit};

use crate::arithmetic::{Operation, chosen, negated};
use crate::comparisons::Comparison;
use crate::facts::Facts;
use crate::sight::{Node, Sight, all_of, any_of};
use crate::truths::{by_truths_or, evaluated};
use std::alloc::Global;
use sy_seq::Want;
use sy_terms::Op;

/// What the path tells of the operator's application, by what it tells of the arguments.
fn value_of(alloc: Global, path: &Facts<'_>, operator: &Op, sights: &[Sight]) -> Result<Node, Want>
    requires { all_fit sights.now ≡ true }
    ensures { IfOk result (λ n. n ≡ operator_applied path.now operator.now sights.now) }
{
    match operator {
        Op::And => Ok(Node::told(all_of(sights))),
        Op::Or => Ok(Node::told(any_of(sights))),
        Op::Not => evaluated(alloc, operator, sights),
        Op::Xor => evaluated(alloc, operator, sights),
        Op::Implies => evaluated(alloc, operator, sights),
        Op::Equal => {
            let compared = Comparison::Equal.in_row(alloc, path, sights)?;
            by_truths_or(alloc, operator, sights, compared)
        }
        Op::Distinct => {
            let compared = Comparison::Distinct.in_pairs(alloc, path, sights)?;
            by_truths_or(alloc, operator, sights, compared)
        }
        Op::Ite => chosen(alloc, sights),
        Op::Neg => negated(alloc, sights),
        Op::Add => Operation::Sum.folded(alloc, sights),
        Op::Sub => Operation::Difference.folded(alloc, sights),
        Op::Mul => Operation::Product.folded(alloc, sights),
        Op::Le => Comparison::AtMost.in_row(alloc, path, sights),
        Op::Lt => Comparison::Less.in_row(alloc, path, sights),
        Op::Ge => Comparison::AtLeast.in_row(alloc, path, sights),
        Op::Gt => Comparison::Greater.in_row(alloc, path, sights),
        _ => Ok(Node::unfit()),
    }
}

/// What the path tells of the operator's application, by what it tells of the arguments, in forms that fit.
pub(crate) fn applied(
    alloc: Global,
    path: &Facts<'_>,
    operator: &Op,
    sights: &[Sight],
) -> Result<Node, Want>
    requires { all_fit sights.now ≡ true }
    ensures ok { IfOk result (λ n. n ≡ operator_applied path.now operator.now sights.now) }
    ensures fits { IfOk result (λ n. sight_fits n.sight ≡ true) }
{
    let node = value_of(alloc, path, operator, sights)?;
    Ok(node)
}
