// What the rules of a grammar give at one size.
ghost use Rattle.std.specs.Prelude.{◌≡◌, ◌<◌, ℕ, length, Some, OnOk, IfErr};
ghost use Rattle.sy_grammar_base.specs.Trees.{rule_at};
ghost use Rattle.sy_grammar_base.specs.Grown.{production_of};
ghost use Rattle.sy_grammar_base.specs.Written.{pattern_of};
ghost use Rattle.sy_bank_level.specs.Filling.{IsSteady, LevelGrows};
ghost use Rattle.sy_bank_level.specs.Task.{world, IsStop, level_state_of};
ghost use Rattle.sy_bank_level.specs.Tasks.{IsTask, IsRule};
ghost use Rattle.sy_bank_level.specs.Tried.{IsTried, AllAreTried, IsFilled};

use crate::choosing::choose;
use crate::copy::copied_part;
use crate::numbers::constants;
use crate::passing::pass_chains;
use crate::positions::variables;
use crate::rule::LeafRule;
use crate::template::Template;
use std::rc::Rc;
use sy_bank_level::{Filling, Stop, Task};
use sy_grammar_base::{Part, Rule};
use sy_terms::Theory;

/// Keeps what all rules give at the task's size, unless kept terms have its rows.
pub(crate) fn fill<T: Theory>(task: &Task<T>, filling: &mut Filling<T>) -> Result<(), Stop<T>>
    requires task { IsTask T.owned T.numeric T.denotes task.now }
    requires steady { IsSteady (world T.owned T.denotes task.now) (level_state_of T.denotes filling.old) }
    ensures steady { OnOk result (IsSteady (world T.owned T.denotes task.now) (level_state_of T.denotes filling.new)) }
    ensures filled { OnOk result
        (IsFilled (world T.owned T.denotes task.now) (level_state_of T.denotes filling.new) task.now.size) }
    ensures stop { IfErr result
        (IsStop T.denotes (world T.owned T.denotes task.now) (level_state_of T.denotes filling.new)) }
{
    try_all(task, filling)?;
    pass_chains(task, filling)?;
    Ok(())
}

/// Tries the rules of all nonterminals.
fn try_all<T: Theory>(task: &Task<T>, filling: &mut Filling<T>) -> Result<(), Stop<T>>
    requires task { IsTask T.owned T.numeric T.denotes task.now }
    requires steady { IsSteady (world T.owned T.denotes task.now) (level_state_of T.denotes filling.old) }
    ensures steady { OnOk result (IsSteady (world T.owned T.denotes task.now) (level_state_of T.denotes filling.new)) }
    ensures tried { OnOk result (AllAreTried (world T.owned T.denotes task.now)
        (level_state_of T.denotes filling.new) task.now.size (length task.now.grammar.now.nons)) }
    ensures stop { IfErr result
        (IsStop T.denotes (world T.owned T.denotes task.now) (level_state_of T.denotes filling.new)) }
{
    for nonterminal in 0..task.grammar.nons().len() {
        try_rules(task, filling, nonterminal as u32)?;
    }
    Ok(())
}

/// Tries the rules of the nonterminal.
fn try_rules<T: Theory>(
    task: &Task<T>,
    filling: &mut Filling<T>,
    nonterminal: u32,
) -> Result<(), Stop<T>>
    requires task { IsTask T.owned T.numeric T.denotes task.now }
    requires known { nonterminal < length task.now.grammar.now.nons }
    requires steady { IsSteady (world T.owned T.denotes task.now) (level_state_of T.denotes filling.old) }
    ensures steady { OnOk result (IsSteady (world T.owned T.denotes task.now) (level_state_of T.denotes filling.new)) }
    ensures grows { OnOk result (LevelGrows (world T.owned T.denotes task.now)
        (level_state_of T.denotes filling.old) (level_state_of T.denotes filling.new)) }
    ensures tried { OnOk result ((rule : ℕ) → IsTried (world T.owned T.denotes task.now)
        (level_state_of T.denotes filling.new) task.now.size nonterminal rule) }
    ensures stop { IfErr result
        (IsStop T.denotes (world T.owned T.denotes task.now) (level_state_of T.denotes filling.new)) }
{
    let rules = task.grammar.nons().as_slice()[nonterminal as usize]
        .rules
        .as_slice();
    for (number, rule) in rules.iter().enumerate() {
        try_rule(task, filling, nonterminal, number as u32, rule)?;
    }
    Ok(())
}

/// Offers what the nonterminal's rule of this number gives of kept terms of lesser sizes.
fn try_rule<T: Theory>(
    task: &Task<T>,
    filling: &mut Filling<T>,
    nonterminal: u32,
    number: u32,
    rule: &Rule<T>,
) -> Result<(), Stop<T>>
    requires task { IsTask T.owned T.numeric T.denotes task.now }
    requires known { nonterminal < length task.now.grammar.now.nons }
    requires rule { rule_at (world T.owned T.denotes task.now).syntax nonterminal number ≡
        Some (production_of T.denotes rule.now) }
    requires steady { IsSteady (world T.owned T.denotes task.now) (level_state_of T.denotes filling.old) }
    ensures steady { OnOk result (IsSteady (world T.owned T.denotes task.now) (level_state_of T.denotes filling.new)) }
    ensures grows { OnOk result (LevelGrows (world T.owned T.denotes task.now)
        (level_state_of T.denotes filling.old) (level_state_of T.denotes filling.new)) }
    ensures tried { OnOk result (IsTried (world T.owned T.denotes task.now)
        (level_state_of T.denotes filling.new) task.now.size nonterminal number) }
    ensures stop { IfErr result
        (IsStop T.denotes (world T.owned T.denotes task.now) (level_state_of T.denotes filling.new)) }
{
    match rule {
        Rule::Term(part) => try_part(task, filling, nonterminal, number, part),
        Rule::AnyConstant(sort) => {
            let rule = LeafRule {
                nonterminal,
                number,
                sort: *sort,
            };
            constants(task, filling, &rule)
        }
        Rule::AnyVariable(sort) => {
            let rule = LeafRule {
                nonterminal,
                number,
                sort: *sort,
            };
            variables(task, filling, &rule)
        }
    }
}

/// The same for a rule that gives a part.
fn try_part<T: Theory>(
    task: &Task<T>,
    filling: &mut Filling<T>,
    nonterminal: u32,
    number: u32,
    part: &Part<T>,
) -> Result<(), Stop<T>>
    requires task { IsTask T.owned T.numeric T.denotes task.now }
    requires rule { IsRule (world T.owned T.denotes task.now).syntax nonterminal number
        (pattern_of T.denotes part.now) }
    requires steady { IsSteady (world T.owned T.denotes task.now) (level_state_of T.denotes filling.old) }
    ensures steady { OnOk result (IsSteady (world T.owned T.denotes task.now) (level_state_of T.denotes filling.new)) }
    ensures grows { OnOk result (LevelGrows (world T.owned T.denotes task.now)
        (level_state_of T.denotes filling.old) (level_state_of T.denotes filling.new)) }
    ensures tried { OnOk result (IsTried (world T.owned T.denotes task.now)
        (level_state_of T.denotes filling.new) task.now.size nonterminal number) }
    ensures stop { IfErr result
        (IsStop T.denotes (world T.owned T.denotes task.now) (level_state_of T.denotes filling.new)) }
{
    let part = Rc::new(task.alloc, copied_part(task.alloc, part)?)?;
    let template = Template {
        nonterminal,
        number,
        part: &part,
    };
    choose(task, filling, &template)
}
