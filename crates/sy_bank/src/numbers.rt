// Offering the constants of a sort.
ghost use Rattle.std.specs.Prelude.{◌≡◌, ◌≢◌, ◌<◌, ◌^◌, Bool, IfErr, OnOk, MatchBool};
ghost use Rattle.sy_terms.specs.Values.{Val, Truth, Whole};
ghost use Rattle.sy_terms.specs.Expr.{Expr};
ghost use Rattle.sy_terms.specs.Denoted.{val_of};
ghost use Rattle.sy_grammar_base.specs.Trees as trees;
ghost use Rattle.sy_grammar_base.specs.Trees.{EachConstant};
ghost use Rattle.sy_bank_level.specs.Filling.{IsSteady, LevelGrows, TermIsDone};
ghost use Rattle.sy_bank_level.specs.Task.{world, IsStop, level_state_of};
ghost use Rattle.sy_bank_level.specs.Tasks.{IsTask};
ghost use Rattle.sy_bank.specs.Leaves.{IsLeafRule, GivesDone, IsGivenConstant, IsDoneFor, IsDoneAt};

use crate::leaf::literal;
use crate::leaves_offering::offer_leaf;
use crate::magnitudes::magnitudes;
use crate::rule::LeafRule;
use sy_bank_level::{Filling, Stop, Task, row_hash};
use sy_grammar_base::Derivation;
use sy_grammar_sizes::{constant_size, number_of};
use sy_terms::{Sort, Theory, Value};

/// Offers the constants of the rule's sort that have the task's size, as long as something new may come of them.
pub fn constants<T: Theory>(
    task: &Task<T>,
    filling: &mut Filling<T>,
    rule: &LeafRule,
) -> Result<(), Stop<T>>
    requires task { IsTask T.owned T.numeric T.denotes task.now }
    requires rule { IsLeafRule (world T.owned T.denotes task.now).syntax rule.now.nonterminal rule.now.number
        (EachConstant rule.now.sort) }
    requires steady { IsSteady (world T.owned T.denotes task.now) (level_state_of T.denotes filling.old) }
    ensures steady { OnOk result (IsSteady (world T.owned T.denotes task.now) (level_state_of T.denotes filling.new)) }
    ensures grows { OnOk result (LevelGrows (world T.owned T.denotes task.now)
        (level_state_of T.denotes filling.old) (level_state_of T.denotes filling.new)) }
    ensures done { OnOk result (GivesDone (world T.owned T.denotes task.now)
        (level_state_of T.denotes filling.new) rule.now.nonterminal (EachConstant rule.now.sort) task.now.size) }
    ensures stop { IfErr result
        (IsStop T.denotes (world T.owned T.denotes task.now) (level_state_of T.denotes filling.new)) }
{
    if task.size == 1 {
        offer_ones(task, filling, rule)?;
        return Ok(());
    }
    offer_counted(task, filling, rule)?;
    Ok(())
}

/// Offers the constants that count 1: true, false, 0, 1 and those of the pool.
fn offer_ones<T: Theory>(
    task: &Task<T>,
    filling: &mut Filling<T>,
    rule: &LeafRule,
) -> Result<(), Stop<T>>
    requires task { IsTask T.owned T.numeric T.denotes task.now }
    requires rule { IsLeafRule (world T.owned T.denotes task.now).syntax rule.now.nonterminal rule.now.number
        (EachConstant rule.now.sort) }
    requires steady { IsSteady (world T.owned T.denotes task.now) (level_state_of T.denotes filling.old) }
    requires one { task.now.size ≡ 1 }
    ensures steady { OnOk result (IsSteady (world T.owned T.denotes task.now) (level_state_of T.denotes filling.new)) }
    ensures grows { OnOk result (LevelGrows (world T.owned T.denotes task.now)
        (level_state_of T.denotes filling.old) (level_state_of T.denotes filling.new)) }
    ensures done { OnOk result ((value : Val) → IsDoneFor (world T.owned T.denotes task.now)
        (level_state_of T.denotes filling.new) rule.now.nonterminal rule.now.sort task.now.size value) }
    ensures stop { IfErr result
        (IsStop T.denotes (world T.owned T.denotes task.now) (level_state_of T.denotes filling.new)) }
{
    offer_truths(task, filling, rule)?;
    offer_number(task, filling, rule, 0)?;
    offer_number(task, filling, rule, 1)?;
    for value in task.pool.as_slice() {
        offer_number(task, filling, rule, number_of::<T>(value))?;
    }
    Ok(())
}

/// Offers true and false where they have the rule's sort.
fn offer_truths<T: Theory>(
    task: &Task<T>,
    filling: &mut Filling<T>,
    rule: &LeafRule,
) -> Result<(), Stop<T>>
    requires task { IsTask T.owned T.numeric T.denotes task.now }
    requires rule { IsLeafRule (world T.owned T.denotes task.now).syntax rule.now.nonterminal rule.now.number
        (EachConstant rule.now.sort) }
    requires steady { IsSteady (world T.owned T.denotes task.now) (level_state_of T.denotes filling.old) }
    ensures steady { OnOk result (IsSteady (world T.owned T.denotes task.now) (level_state_of T.denotes filling.new)) }
    ensures grows { OnOk result (LevelGrows (world T.owned T.denotes task.now)
        (level_state_of T.denotes filling.old) (level_state_of T.denotes filling.new)) }
    ensures done { OnOk result ((truth : Bool) → IsDoneFor (world T.owned T.denotes task.now)
        (level_state_of T.denotes filling.new) rule.now.nonterminal rule.now.sort task.now.size (Truth truth)) }
    ensures stop { IfErr result
        (IsStop T.denotes (world T.owned T.denotes task.now) (level_state_of T.denotes filling.new)) }
{
    match rule.sort {
        Sort::Bool => {
            offer_constant(task, filling, rule, Value::Truth(false))?;
            offer_constant(task, filling, rule, Value::Truth(true))?;
            Ok(())
        }
        Sort::Int | Sort::Bits(_) => Ok(()),
    }
}

/// Offers the constants that count by the binary digits of their magnitudes.
fn offer_counted<T: Theory>(
    task: &Task<T>,
    filling: &mut Filling<T>,
    rule: &LeafRule,
) -> Result<(), Stop<T>>
    requires task { IsTask T.owned T.numeric T.denotes task.now }
    requires rule { IsLeafRule (world T.owned T.denotes task.now).syntax rule.now.nonterminal rule.now.number
        (EachConstant rule.now.sort) }
    requires steady { IsSteady (world T.owned T.denotes task.now) (level_state_of T.denotes filling.old) }
    requires counted { task.now.size ≢ 1 }
    ensures steady { OnOk result (IsSteady (world T.owned T.denotes task.now) (level_state_of T.denotes filling.new)) }
    ensures grows { OnOk result (LevelGrows (world T.owned T.denotes task.now)
        (level_state_of T.denotes filling.old) (level_state_of T.denotes filling.new)) }
    ensures done { OnOk result ((value : Val) → IsDoneFor (world T.owned T.denotes task.now)
        (level_state_of T.denotes filling.new) rule.now.nonterminal rule.now.sort task.now.size value) }
    ensures stop { IfErr result
        (IsStop T.denotes (world T.owned T.denotes task.now) (level_state_of T.denotes filling.new)) }
{
    let (first, end) = magnitudes(rule.sort, task.size);
    let mut magnitude = first;
    while magnitude < end && !is_settled(task, filling, rule.nonterminal) {
        offer_magnitude(task, filling, rule, magnitude)?;
        magnitude += 1;
    }
    Ok(())
}

/// Offers the constants of the rule's sort that have this magnitude.
fn offer_magnitude<T: Theory>(
    task: &Task<T>,
    filling: &mut Filling<T>,
    rule: &LeafRule,
    magnitude: u128,
) -> Result<(), Stop<T>>
    requires task { IsTask T.owned T.numeric T.denotes task.now }
    requires rule { IsLeafRule (world T.owned T.denotes task.now).syntax rule.now.nonterminal rule.now.number
        (EachConstant rule.now.sort) }
    requires steady { IsSteady (world T.owned T.denotes task.now) (level_state_of T.denotes filling.old) }
    requires positive { 0 < magnitude }
    requires bounded { magnitude < 2 ^ 127 }
    ensures steady { OnOk result (IsSteady (world T.owned T.denotes task.now) (level_state_of T.denotes filling.new)) }
    ensures grows { OnOk result (LevelGrows (world T.owned T.denotes task.now)
        (level_state_of T.denotes filling.old) (level_state_of T.denotes filling.new)) }
    ensures done { OnOk result ((value : Val) → trees.value_magnitude value ≡ magnitude →
        IsDoneFor (world T.owned T.denotes task.now)
        (level_state_of T.denotes filling.new) rule.now.nonterminal rule.now.sort task.now.size value) }
    ensures stop { IfErr result
        (IsStop T.denotes (world T.owned T.denotes task.now) (level_state_of T.denotes filling.new)) }
{
    let number = magnitude as i128;
    offer_number(task, filling, rule, number)?;
    offer_number(task, filling, rule, -number)?;
    Ok(())
}

/// Offers the constant of the rule's sort that the number is, where it is one.
fn offer_number<T: Theory>(
    task: &Task<T>,
    filling: &mut Filling<T>,
    rule: &LeafRule,
    number: i128,
) -> Result<(), Stop<T>>
    requires task { IsTask T.owned T.numeric T.denotes task.now }
    requires rule { IsLeafRule (world T.owned T.denotes task.now).syntax rule.now.nonterminal rule.now.number
        (EachConstant rule.now.sort) }
    requires steady { IsSteady (world T.owned T.denotes task.now) (level_state_of T.denotes filling.old) }
    ensures steady { OnOk result (IsSteady (world T.owned T.denotes task.now) (level_state_of T.denotes filling.new)) }
    ensures grows { OnOk result (LevelGrows (world T.owned T.denotes task.now)
        (level_state_of T.denotes filling.old) (level_state_of T.denotes filling.new)) }
    ensures done { OnOk result (IsDoneAt (world T.owned T.denotes task.now)
        (level_state_of T.denotes filling.new) rule.now.nonterminal rule.now.sort task.now.size number) }
    ensures stop { IfErr result
        (IsStop T.denotes (world T.owned T.denotes task.now) (level_state_of T.denotes filling.new)) }
{
    if !is_written(number) {
        return Ok(());
    }
    match T::of_number(rule.sort, number) {
        Some(found) => {
            offer_constant(task, filling, rule, Value::Num(found))?;
            Ok(())
        }
        None => Ok(()),
    }
}

/// Offers the constant, unless its size isn't the task's.
fn offer_constant<T: Theory>(
    task: &Task<T>,
    filling: &mut Filling<T>,
    rule: &LeafRule,
    value: Value<T::Num>,
) -> Result<(), Stop<T>>
    requires task { IsTask T.owned T.numeric T.denotes task.now }
    requires rule { IsLeafRule (world T.owned T.denotes task.now).syntax rule.now.nonterminal rule.now.number
        (EachConstant rule.now.sort) }
    requires steady { IsSteady (world T.owned T.denotes task.now) (level_state_of T.denotes filling.old) }
    requires given { IsGivenConstant rule.now.sort (val_of T.denotes value) }
    ensures steady { OnOk result (IsSteady (world T.owned T.denotes task.now) (level_state_of T.denotes filling.new)) }
    ensures grows { OnOk result (LevelGrows (world T.owned T.denotes task.now)
        (level_state_of T.denotes filling.old) (level_state_of T.denotes filling.new)) }
    ensures done { OnOk result (IsDoneFor (world T.owned T.denotes task.now) (level_state_of T.denotes filling.new)
        rule.now.nonterminal rule.now.sort task.now.size (val_of T.denotes value)) }
    ensures stop { IfErr result
        (IsStop T.denotes (world T.owned T.denotes task.now) (level_state_of T.denotes filling.new)) }
{
    if constant_size::<T>(&value, task.pool) != task.size {
        return Ok(());
    }
    let term = literal(task.alloc, value)?;
    let derivation = Derivation::Constant(rule.number, value);
    offer_leaf(task, filling, rule.nonterminal, term, derivation)
}

/// Whether the integer is one that rules give.
fn is_written(number: i128) -> bool
    ensures { result ≡ trees.is_written (Whole number) }
{
    number != i128::MIN
}

/// Whether nothing new may come for the nonterminal: there are no points, and a term is kept.
fn is_settled<T: Theory>(task: &Task<T>, filling: &Filling<T>, nonterminal: u32) -> bool
    requires task { IsTask T.owned T.numeric T.denotes task.now }
    requires steady { IsSteady (world T.owned T.denotes task.now) (level_state_of T.denotes filling.now) }
    ensures { MatchBool result
        ((term : Expr) → TermIsDone (world T.owned T.denotes task.now)
        (level_state_of T.denotes filling.now) nonterminal task.now.size term)
        (Unit {0}) }
{
    if !task.points.is_empty() {
        return false;
    }
    let row: Vec<Value<T::Num>> = Vec::new(task.alloc);
    let hash = row_hash::<T>(nonterminal, row.as_slice());
    filling.has_row(task.levels, nonterminal, hash, row.as_slice())
}
