// The largest sizes of the grammars of a problem.
ghost use Rattle.std.specs.Prelude.{◌↔◌, IsTrue, IfOk};
ghost use Rattle.sy_grammar_base.specs.Questions.{question_of};
ghost use Rattle.sy_loop_spec.specs.Sizes.{AreAtMost};

use std::alloc::Global;
use sy_grammar_base::Problem;
use sy_grammar_sizes::largest;
use sy_terms::{Theory, Want};

/// Whether the largest sizes of the grammars' derivations sum to at most `size`.
pub(crate) fn are_at_most<T: Theory>(
    alloc: Global,
    problem: &Problem<T>,
    size: u32,
) -> Result<bool, Want>
    ensures { IfOk result (λ answer. IsTrue answer ↔ AreAtMost (question_of T.denotes problem.now) size) }
{
    let mut left = size;
    for wanted in problem.wanted.as_slice() {
        match largest(alloc, &wanted.grammar, &problem.pool, left)? {
            Some(size) => left -= size,
            None => return Ok(false),
        }
    }
    Ok(true)
}
