// Passing kept terms along chain rules.
ghost use Rattle.std.specs.Prelude.{◌≡◌, ◌<◌, ◌^◌, ℕ, [], length, map, slice_get, slice_index_or, Some, IfErr, OnOk};
ghost use Rattle.sy_grammar_base.specs.Patterns.{Occurrence};
ghost use Rattle.sy_grammar_base.specs.Trees.{Template, rule_at};
ghost use Rattle.sy_grammar_base.specs.Grown.{production_of};
ghost use Rattle.sy_bank_level.specs.Banks.{Entry};
ghost use Rattle.sy_bank_level.specs.Filling.{IsSteady, LevelGrows, TermIsDone};
ghost use Rattle.sy_bank_level.specs.Task.{world, IsStop, level_state_of};
ghost use Rattle.sy_bank_level.specs.Tasks.{IsTask};
ghost use Rattle.sy_bank.specs.Passing.{IsChainRule, IsPassed, ArePassed};

use crate::chained::{Chain, chained};
use sy_bank_level::{Filling, Stop, Task, row_hash};
use sy_grammar_base::Rule;
use sy_grammar_sizes::chain_of;
use sy_terms::Theory;

/// Keeps the kept terms of the task's size also for each nonterminal that has a chain rule for theirs, unless a kept
/// term there has the same row, until nothing new comes.
pub fn pass_chains<T: Theory>(task: &Task<T>, filling: &mut Filling<T>) -> Result<(), Stop<T>>
    requires task { IsTask T.owned T.numeric T.denotes task.now }
    requires steady { IsSteady (world T.owned T.denotes task.now) (level_state_of T.denotes filling.old) }
    ensures steady { OnOk result (IsSteady (world T.owned T.denotes task.now) (level_state_of T.denotes filling.new)) }
    ensures grows { OnOk result (LevelGrows (world T.owned T.denotes task.now)
        (level_state_of T.denotes filling.old) (level_state_of T.denotes filling.new)) }
    ensures done { OnOk result
        (ArePassed (world T.owned T.denotes task.now) (level_state_of T.denotes filling.new) task.now.size) }
    ensures stop { IfErr result
        (IsStop T.denotes (world T.owned T.denotes task.now) (level_state_of T.denotes filling.new)) }
{
    loop {
        let before = filling.count;
        pass_all(task, filling)?;
        if filling.count == before {
            return Ok(());
        }
    }
}

/// Does so once along each chain rule.
fn pass_all<T: Theory>(task: &Task<T>, filling: &mut Filling<T>) -> Result<(), Stop<T>>
    requires task { IsTask T.owned T.numeric T.denotes task.now }
    requires steady { IsSteady (world T.owned T.denotes task.now) (level_state_of T.denotes filling.old) }
    ensures steady { OnOk result (IsSteady (world T.owned T.denotes task.now) (level_state_of T.denotes filling.new)) }
    ensures grows { OnOk result (LevelGrows (world T.owned T.denotes task.now)
        (level_state_of T.denotes filling.old) (level_state_of T.denotes filling.new)) }
    ensures done { OnOk result ((level_state_of T.denotes filling.old).count ≡
        (level_state_of T.denotes filling.new).count →
        ArePassed (world T.owned T.denotes task.now) (level_state_of T.denotes filling.new) task.now.size) }
    ensures stop { IfErr result
        (IsStop T.denotes (world T.owned T.denotes task.now) (level_state_of T.denotes filling.new)) }
{
    for (nonterminal, item) in task.grammar.nons().as_slice().iter().enumerate() {
        pass_rules(task, filling, nonterminal as u32, item.rules.as_slice())?;
    }
    Ok(())
}

/// Does so once along each chain rule among these rules of a nonterminal.
fn pass_rules<T: Theory>(
    task: &Task<T>,
    filling: &mut Filling<T>,
    nonterminal: u32,
    rules: &[Rule<T>],
) -> Result<(), Stop<T>>
    requires task { IsTask T.owned T.numeric T.denotes task.now }
    requires known { nonterminal < length (world T.owned T.denotes task.now).syntax.nonterminals }
    requires rules { (number : ℕ) → rule_at (world T.owned T.denotes task.now).syntax nonterminal number ≡
        slice_get (map (production_of T.denotes) rules.now) number }
    requires few { length rules.now < 2 ^ 31 }
    requires steady { IsSteady (world T.owned T.denotes task.now) (level_state_of T.denotes filling.old) }
    ensures steady { OnOk result (IsSteady (world T.owned T.denotes task.now) (level_state_of T.denotes filling.new)) }
    ensures grows { OnOk result (LevelGrows (world T.owned T.denotes task.now)
        (level_state_of T.denotes filling.old) (level_state_of T.denotes filling.new)) }
    ensures done { OnOk result ((level_state_of T.denotes filling.old).count ≡ (level_state_of T.denotes
        filling.new).count → (number to : ℕ) → rule_at (world T.owned T.denotes task.now).syntax nonterminal number ≡
        Some (Template (Occurrence to)) → IsPassed (world T.owned T.denotes task.now)
        (level_state_of T.denotes filling.new) nonterminal to task.now.size) }
    ensures stop { IfErr result
        (IsStop T.denotes (world T.owned T.denotes task.now) (level_state_of T.denotes filling.new)) }
{
    for (number, rule) in rules.iter().enumerate() {
        pass_rule(task, filling, nonterminal, number as u32, rule)?;
    }
    Ok(())
}

/// Does so once along the rule if it is a chain rule.
fn pass_rule<T: Theory>(
    task: &Task<T>,
    filling: &mut Filling<T>,
    nonterminal: u32,
    number: u32,
    rule: &Rule<T>,
) -> Result<(), Stop<T>>
    requires task { IsTask T.owned T.numeric T.denotes task.now }
    requires known { nonterminal < length (world T.owned T.denotes task.now).syntax.nonterminals }
    requires at { rule_at (world T.owned T.denotes task.now).syntax nonterminal number ≡
        Some (production_of T.denotes rule.now) }
    requires steady { IsSteady (world T.owned T.denotes task.now) (level_state_of T.denotes filling.old) }
    ensures steady { OnOk result (IsSteady (world T.owned T.denotes task.now) (level_state_of T.denotes filling.new)) }
    ensures grows { OnOk result (LevelGrows (world T.owned T.denotes task.now)
        (level_state_of T.denotes filling.old) (level_state_of T.denotes filling.new)) }
    ensures done { OnOk result ((level_state_of T.denotes filling.old).count ≡
        (level_state_of T.denotes filling.new).count → (to : ℕ) → rule_at (world T.owned T.denotes task.now).syntax
        nonterminal number ≡ Some (Template (Occurrence to)) → IsPassed (world T.owned T.denotes task.now)
        (level_state_of T.denotes filling.new) nonterminal to task.now.size) }
    ensures stop { IfErr result
        (IsStop T.denotes (world T.owned T.denotes task.now) (level_state_of T.denotes filling.new)) }
{
    match chain_of(rule) {
        Some(to) => {
            let chain = Chain {
                nonterminal,
                number,
                to,
            };
            pass_chain(task, filling, &chain)?;
            Ok(())
        }
        None => Ok(()),
    }
}

/// Does so once along the chain rule.
fn pass_chain<T: Theory>(
    task: &Task<T>,
    filling: &mut Filling<T>,
    chain: &Chain,
) -> Result<(), Stop<T>>
    requires task { IsTask T.owned T.numeric T.denotes task.now }
    requires chain { IsChainRule (world T.owned T.denotes task.now).syntax
        chain.now.nonterminal chain.now.number chain.now.to }
    requires steady { IsSteady (world T.owned T.denotes task.now) (level_state_of T.denotes filling.old) }
    ensures steady { OnOk result (IsSteady (world T.owned T.denotes task.now) (level_state_of T.denotes filling.new)) }
    ensures grows { OnOk result (LevelGrows (world T.owned T.denotes task.now)
        (level_state_of T.denotes filling.old) (level_state_of T.denotes filling.new)) }
    ensures done { OnOk result ((level_state_of T.denotes filling.old).count ≡
        (level_state_of T.denotes filling.new).count → IsPassed (world T.owned T.denotes task.now)
        (level_state_of T.denotes filling.new) chain.now.nonterminal chain.now.to task.now.size) }
    ensures stop { IfErr result
        (IsStop T.denotes (world T.owned T.denotes task.now) (level_state_of T.denotes filling.new)) }
{
    let count = filling.fresh.of(chain.to as usize).len();
    for place in 0..count {
        pass_term(task, filling, chain, place)?;
    }
    Ok(())
}

/// Passes the kept term of this place along the chain rule.
fn pass_term<T: Theory>(
    task: &Task<T>,
    filling: &mut Filling<T>,
    chain: &Chain,
    place: usize,
) -> Result<(), Stop<T>>
    requires task { IsTask T.owned T.numeric T.denotes task.now }
    requires chain { IsChainRule (world T.owned T.denotes task.now).syntax
        chain.now.nonterminal chain.now.number chain.now.to }
    requires steady { IsSteady (world T.owned T.denotes task.now) (level_state_of T.denotes filling.old) }
    ensures steady { OnOk result (IsSteady (world T.owned T.denotes task.now) (level_state_of T.denotes filling.new)) }
    ensures grows { OnOk result (LevelGrows (world T.owned T.denotes task.now)
        (level_state_of T.denotes filling.old) (level_state_of T.denotes filling.new)) }
    ensures done { OnOk result ((entry : Entry) → slice_get (slice_index_or (level_state_of T.denotes filling.old).fresh
        chain.now.to []) place ≡ Some entry → TermIsDone (world T.owned T.denotes task.now)
        (level_state_of T.denotes filling.new) chain.now.nonterminal task.now.size entry.term) }
    ensures stop { IfErr result
        (IsStop T.denotes (world T.owned T.denotes task.now) (level_state_of T.denotes filling.new)) }
{
    let Some(kept) = filling.fresh.get(chain.to as usize, place) else {
        return Ok(());
    };
    let hash = row_hash::<T>(chain.nonterminal, kept.row.as_slice());
    if filling.has_row(task.levels, chain.nonterminal, hash, kept.row.as_slice()) {
        return Ok(());
    }
    let passed = chained(task.alloc, chain, kept)?;
    filling.keep(task, chain.nonterminal, hash, passed)?;
    Ok(())
}
