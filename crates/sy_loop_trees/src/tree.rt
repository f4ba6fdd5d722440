// The terms that conditional trees over kept terms are.
ghost use Rattle.std.specs.Prelude.{◌≡◌, IfOk};
ghost use Rattle.sy_terms.specs.Denoted.{expr_of};
ghost use Rattle.sy_bank_level.specs.Stored.{chosen_of};
ghost use Rattle.sy_loop_spec.specs.Conditional.{yield};
ghost use Rattle.sy_loop_spec.specs.Trees.{conditional_of, entry_at};

use std::alloc::Global;
use sy_bank_level::Kept;
use sy_terms::{Op, Term, Terms, Theory, Value, Want};
use sy_unify::Choice;

/// The term that the choice is, where its numbers stand for these leaves and conditions. A number for which there is
/// none stands for `false`.
pub fn tree_term<T: Theory>(
    alloc: Global,
    choice: &Choice,
    leaves: &[&Kept<T>],
    conditions: &[&Kept<T>],
) -> Result<Term<T>, Want>
    ensures { IfOk result (λ term. expr_of T.denotes term ≡
        yield (conditional_of (chosen_of T.denotes leaves.now) (chosen_of T.denotes conditions.now) choice.now)) }
{
    match choice {
        Choice::Leaf(leaf) => {
            let term = part_term(alloc, leaves, *leaf)?;
            Ok(term)
        }
        Choice::Test(test, there, here) => {
            let mut arguments = Terms::with_capacity(alloc, 3)?;
            arguments.push(part_term(alloc, conditions, *test)?)?;
            arguments.push(tree_term(alloc, there, leaves, conditions)?)?;
            arguments.push(tree_term(alloc, here, leaves, conditions)?)?;
            Ok(Term::App(Op::Ite, arguments))
        }
    }
}

/// The kept term of this number, in memory of its own; `false` where there is none.
fn part_term<T: Theory>(alloc: Global, kept: &[&Kept<T>], number: u32) -> Result<Term<T>, Want>
    ensures { IfOk result (λ term. expr_of T.denotes term ≡ (entry_at (chosen_of T.denotes kept.now) number).term) }
{
    match kept.get(number as usize) {
        Some(kept) => {
            let term = kept.term(alloc)?;
            Ok(term)
        }
        None => Ok(Term::Const(Value::Truth(false))),
    }
}
