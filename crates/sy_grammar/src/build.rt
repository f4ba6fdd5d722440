// The derivation that a step stands for.
ghost use Rattle.std.specs.Prelude.{◌≡◌, ◌<◌, length, IfOk};
ghost use Rattle.sy_grammar_base.specs.Grown.{tree_of};
ghost use Rattle.sy_grammar.specs.Steps.{tree_at, step_trees, AreInOrder};

use crate::step::Step;
use std::alloc::{AllocError, Global};
use sy_grammar_base::{Derivation, Derivations};
use sy_terms::Theory;

/// The derivation by the step of this number.
pub fn build<T: Theory>(
    alloc: Global,
    steps: &[Step<T>],
    number: usize,
) -> Result<Derivation<T>, AllocError>
    requires within { number < length steps.now }
    requires ordered { AreInOrder steps.now }
    ensures { IfOk result (λ derivation. tree_of T.denotes derivation ≡
        tree_at (step_trees T.denotes steps.now) number) }
{
    match &steps[number] {
        Step::Node(rule, fillers) => {
            let mut children = Derivations::new(alloc);
            for filler in fillers {
                let child = build(alloc, steps, *filler)?;
                children.push(child)?;
            }
            Ok(Derivation::Node(*rule, children))
        }
        Step::Constant(rule, value) => Ok(Derivation::Constant(*rule, *value)),
        Step::Variable(rule, position) => Ok(Derivation::Variable(*rule, *position)),
    }
}
