// Choosing kept terms for the places of a rule.
ghost use Rattle.std.specs.Prelude.{◌≡◌, [], ◌∷◌, ◌++◌, All, IfErr, OnOk};
ghost use Rattle.sy_grammar_base.specs.Written.{pattern_of};
ghost use Rattle.sy_bank_level.specs.Stored.{entry_of, chosen_of};
ghost use Rattle.sy_bank_level.specs.Filling.{IsSteady, LevelGrows};
ghost use Rattle.sy_bank_level.specs.Task.{world, IsStop, level_state_of};
ghost use Rattle.sy_bank_level.specs.Tasks.{IsTask, IsRule};
ghost use Rattle.sy_bank.specs.Choosing.{AreDone, AreDoneFrom, PatternIsBegun};

use crate::levels::kept_terms;
use crate::measure::{left_of, places};
use crate::offering::offer;
use crate::template::Template;
use sy_bank_level::{Filling, Kept, Stop, Task};
use sy_terms::Theory;

/// Offers what the rule gives of each list of kept terms of lesser sizes whose sizes and the rule's own sum to the
/// task's size.
pub fn choose<T: Theory>(
    task: &Task<T>,
    filling: &mut Filling<T>,
    template: &Template<T>,
) -> Result<(), Stop<T>>
    requires task { IsTask T.owned T.numeric T.denotes task.now }
    requires rule { IsRule (world T.owned T.denotes task.now).syntax template.now.nonterminal template.now.number
        (pattern_of T.denotes template.now.part.now.value) }
    requires steady { IsSteady (world T.owned T.denotes task.now) (level_state_of T.denotes filling.old) }
    ensures steady { OnOk result (IsSteady (world T.owned T.denotes task.now) (level_state_of T.denotes filling.new)) }
    ensures grows { OnOk result (LevelGrows (world T.owned T.denotes task.now)
        (level_state_of T.denotes filling.old) (level_state_of T.denotes filling.new)) }
    ensures done { OnOk result (AreDone (world T.owned T.denotes task.now) (level_state_of T.denotes filling.new)
        template.now.nonterminal task.now.size (pattern_of T.denotes template.now.part.now.value)) }
    ensures stop { IfErr result
        (IsStop T.denotes (world T.owned T.denotes task.now) (level_state_of T.denotes filling.new)) }
{
    let Some(left) = left_of(template.part, task.size) else {
        return Ok(());
    };
    let places = places(task.alloc, template.part)?;
    let mut chosen = Vec::with_capacity(task.alloc, places.len())?;
    choose_rest(
        task,
        filling,
        template,
        places.as_slice(),
        left,
        &mut chosen,
    )?;
    Ok(())
}

/// Offers what the rule gives of the chosen terms and of each list of kept terms for the places left, whose sizes sum
/// to what is left.
#[cycle(choose)]
fn choose_rest<'a, T: Theory>(
    task: &Task<'a, T>,
    filling: &mut Filling<T>,
    template: &Template<T>,
    places: &[u32],
    left: usize,
    chosen: &mut Vec<&'a Kept<T>>,
) -> Result<(), Stop<T>>
    requires task { IsTask T.owned T.numeric T.denotes task.now }
    requires rule { IsRule (world T.owned T.denotes task.now).syntax template.now.nonterminal template.now.number
        (pattern_of T.denotes template.now.part.now.value) }
    requires steady { IsSteady (world T.owned T.denotes task.now) (level_state_of T.denotes filling.old) }
    requires begun { PatternIsBegun (world T.owned T.denotes task.now)
        (pattern_of T.denotes template.now.part.now.value) (chosen_of T.denotes chosen.old.items) places.now left }
    ensures steady { OnOk result (IsSteady (world T.owned T.denotes task.now) (level_state_of T.denotes filling.new)) }
    ensures grows { OnOk result (LevelGrows (world T.owned T.denotes task.now)
        (level_state_of T.denotes filling.old) (level_state_of T.denotes filling.new)) }
    ensures chosen { OnOk result (chosen.new.items ≡ chosen.old.items) }
    ensures done { OnOk result
        (AreDoneFrom (world T.owned T.denotes task.now) (level_state_of T.denotes filling.new) template.now.nonterminal
        (pattern_of T.denotes template.now.part.now.value) (chosen_of T.denotes chosen.old.items) places.now left) }
    ensures stop { IfErr result
        (IsStop T.denotes (world T.owned T.denotes task.now) (level_state_of T.denotes filling.new)) }
{
    let Some((first, others)) = places.split_first() else {
        if left == 0 {
            offer(task, filling, template, chosen.as_slice())?;
        }
        return Ok(());
    };
    if left <= others.len() {
        return Ok(());
    }
    let most = left - others.len();
    let least = if others.is_empty() { most } else { 1 };
    for size in least..most + 1 {
        if let Some(terms) = kept_terms(task.levels, *first, size) {
            choose_first(task, filling, template, terms, others, left - size, chosen)?;
        }
    }
    Ok(())
}

/// The same where the first of the others is one of these terms.
#[cycle(choose)]
fn choose_first<'a, T: Theory>(
    task: &Task<'a, T>,
    filling: &mut Filling<T>,
    template: &Template<T>,
    terms: &'a [Kept<T>],
    places: &[u32],
    left: usize,
    chosen: &mut Vec<&'a Kept<T>>,
) -> Result<(), Stop<T>>
    requires task { IsTask T.owned T.numeric T.denotes task.now }
    requires rule { IsRule (world T.owned T.denotes task.now).syntax template.now.nonterminal template.now.number
        (pattern_of T.denotes template.now.part.now.value) }
    requires steady { IsSteady (world T.owned T.denotes task.now) (level_state_of T.denotes filling.old) }
    requires begun { All (λ term.
        PatternIsBegun (world T.owned T.denotes task.now) (pattern_of T.denotes template.now.part.now.value)
        (chosen_of T.denotes chosen.old.items ++ entry_of T.denotes term ∷ []) places.now left) terms.now }
    ensures steady { OnOk result (IsSteady (world T.owned T.denotes task.now) (level_state_of T.denotes filling.new)) }
    ensures grows { OnOk result (LevelGrows (world T.owned T.denotes task.now)
        (level_state_of T.denotes filling.old) (level_state_of T.denotes filling.new)) }
    ensures chosen { OnOk result (chosen.new.items ≡ chosen.old.items) }
    ensures done { OnOk result (All (λ term. AreDoneFrom (world T.owned T.denotes task.now) (level_state_of T.denotes
        filling.new) template.now.nonterminal (pattern_of T.denotes template.now.part.now.value)
        (chosen_of T.denotes chosen.old.items ++ entry_of T.denotes term ∷ []) places.now left) terms.now) }
    ensures stop { IfErr result
        (IsStop T.denotes (world T.owned T.denotes task.now) (level_state_of T.denotes filling.new)) }
{
    for term in terms {
        chosen.push(term)?;
        choose_rest(task, filling, template, places, left, chosen)?;
        chosen.pop();
    }
    Ok(())
}
