// Offering the arguments of a sort.
ghost use Rattle.std.specs.Prelude.{◌≡◌, true, slice_get, Some, IfErr, OnOk};
ghost use Rattle.sy_grammar_base.specs.Trees.{EachVariable};
ghost use Rattle.sy_terms.specs.Sorts as sorts;
ghost use Rattle.sy_terms.specs.Expr.{Variable};
ghost use Rattle.sy_bank_level.specs.Filling.{IsSteady, LevelGrows, TermIsDone};
ghost use Rattle.sy_bank_level.specs.Task.{world, IsStop, level_state_of};
ghost use Rattle.sy_bank_level.specs.Tasks.{IsTask};
ghost use Rattle.sy_bank.specs.Leaves.{IsLeafRule, GivesDone};

use crate::leaves_offering::offer_leaf;
use crate::rule::LeafRule;
use sy_bank_level::{Filling, Stop, Task};
use sy_grammar_base::Derivation;
use sy_terms::{Sort, Term, Theory, same_sort};

/// Offers the arguments of the rule's sort, which have size 1. `Want` comes also where there is an argument of a number
/// beyond 32 bits.
pub fn variables<T: Theory>(
    task: &Task<T>,
    filling: &mut Filling<T>,
    rule: &LeafRule,
) -> Result<(), Stop<T>>
    requires task { IsTask T.owned T.numeric T.denotes task.now }
    requires rule { IsLeafRule (world T.owned T.denotes task.now).syntax rule.now.nonterminal rule.now.number
        (EachVariable rule.now.sort) }
    requires steady { IsSteady (world T.owned T.denotes task.now) (level_state_of T.denotes filling.old) }
    ensures steady { OnOk result (IsSteady (world T.owned T.denotes task.now) (level_state_of T.denotes filling.new)) }
    ensures grows { OnOk result (LevelGrows (world T.owned T.denotes task.now)
        (level_state_of T.denotes filling.old) (level_state_of T.denotes filling.new)) }
    ensures done { OnOk result (GivesDone (world T.owned T.denotes task.now)
        (level_state_of T.denotes filling.new) rule.now.nonterminal (EachVariable rule.now.sort) task.now.size) }
    ensures stop { IfErr result
        (IsStop T.denotes (world T.owned T.denotes task.now) (level_state_of T.denotes filling.new)) }
{
    if task.size != 1 {
        return Ok(());
    }
    for (position, sort) in task.grammar.args().as_slice().iter().enumerate() {
        offer_argument(task, filling, rule, position, sort)?;
    }
    Ok(())
}

/// Offers the argument of this position if its sort is the rule's.
fn offer_argument<T: Theory>(
    task: &Task<T>,
    filling: &mut Filling<T>,
    rule: &LeafRule,
    position: usize,
    sort: &Sort,
) -> Result<(), Stop<T>>
    requires task { IsTask T.owned T.numeric T.denotes task.now }
    requires rule { IsLeafRule (world T.owned T.denotes task.now).syntax rule.now.nonterminal rule.now.number
        (EachVariable rule.now.sort) }
    requires steady { IsSteady (world T.owned T.denotes task.now) (level_state_of T.denotes filling.old) }
    requires one { task.now.size ≡ 1 }
    requires at { slice_get (world T.owned T.denotes task.now).syntax.arguments position ≡ Some sort.now }
    ensures steady { OnOk result (IsSteady (world T.owned T.denotes task.now) (level_state_of T.denotes filling.new)) }
    ensures grows { OnOk result (LevelGrows (world T.owned T.denotes task.now)
        (level_state_of T.denotes filling.old) (level_state_of T.denotes filling.new)) }
    ensures done { OnOk result (sorts.same_sort rule.now.sort sort.now ≡ true → TermIsDone (world T.owned T.denotes
        task.now) (level_state_of T.denotes filling.new) rule.now.nonterminal task.now.size (Variable position)) }
    ensures stop { IfErr result
        (IsStop T.denotes (world T.owned T.denotes task.now) (level_state_of T.denotes filling.new)) }
{
    if !same_sort(&rule.sort, sort) {
        return Ok(());
    }
    let Ok(position) = u32::try_from(position) else {
        return Err(Stop::Want);
    };
    let derivation = Derivation::Variable(rule.number, position);
    offer_leaf(
        task,
        filling,
        rule.nonterminal,
        Term::Var(position),
        derivation,
    )?;
    Ok(())
}
