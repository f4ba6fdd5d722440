// Offering one term.
ghost use Rattle.std.specs.Prelude.{◌≡◌, ◌+◌, IfErr, OnOk};
ghost use Rattle.sy_grammar_base.specs.Patterns.{occurring, filled, own_size};
ghost use Rattle.sy_grammar_base.specs.Written.{pattern_of};
ghost use Rattle.sy_bank_level.specs.Covering.{AreKept, sizes, terms};
ghost use Rattle.sy_bank_level.specs.Stored.{chosen_of};
ghost use Rattle.sy_bank_level.specs.Filling.{IsSteady, LevelGrows, TermIsDone};
ghost use Rattle.sy_bank_level.specs.Task.{world, IsStop, level_state_of, levels_of};
ghost use Rattle.sy_bank_level.specs.Tasks.{IsTask, IsRule};

use crate::fill::{chosen_part, grown};
use crate::template::Template;
use sy_bank_columns::{RowEnd, part_row};
use sy_bank_level::{Dropped, Filling, Kept, Stop, Task, row_hash};
use sy_terms::Theory;

/// Keeps what the part gives of the chosen terms, unless a kept term has its row; drops it where it isn't computable.
pub fn offer<T: Theory>(
    task: &Task<T>,
    filling: &mut Filling<T>,
    template: &Template<T>,
    chosen: &[&Kept<T>],
) -> Result<(), Stop<T>>
    requires task { IsTask T.owned T.numeric T.denotes task.now }
    requires rule { IsRule (world T.owned T.denotes task.now).syntax template.now.nonterminal template.now.number
        (pattern_of T.denotes template.now.part.now.value) }
    requires steady { IsSteady (world T.owned T.denotes task.now) (level_state_of T.denotes filling.old) }
    requires chosen { AreKept (levels_of T.denotes task.now.levels.now)
        (occurring (pattern_of T.denotes template.now.part.now.value)) (chosen_of T.denotes chosen.now) }
    requires sized { own_size (pattern_of T.denotes template.now.part.now.value) + sizes
        (chosen_of T.denotes chosen.now) ≡ task.now.size }
    ensures steady { OnOk result (IsSteady (world T.owned T.denotes task.now) (level_state_of T.denotes filling.new)) }
    ensures grows { OnOk result (LevelGrows (world T.owned T.denotes task.now)
        (level_state_of T.denotes filling.old) (level_state_of T.denotes filling.new)) }
    ensures done { OnOk result (TermIsDone (world T.owned T.denotes task.now)
        (level_state_of T.denotes filling.new) template.now.nonterminal task.now.size
        (filled (pattern_of T.denotes template.now.part.now.value) (terms (chosen_of T.denotes chosen.now)))) }
    ensures stop { IfErr result
        (IsStop T.denotes (world T.owned T.denotes task.now) (level_state_of T.denotes filling.new)) }
{
    let alloc = task.alloc;
    let row = match part_row(alloc, task.defs, task.points, template.part, chosen) {
        Ok(row) => row,
        Err(RowEnd::Lost(point)) => {
            let term = chosen_part(alloc, template.part, chosen)?;
            filling.lose(task, Dropped { term, point });
            return Ok(());
        }
        Err(RowEnd::Want) => return Err(Stop::Want),
    };
    let hash = row_hash::<T>(template.nonterminal, row.as_slice());
    if filling.has_row(task.levels, template.nonterminal, hash, row.as_slice()) {
        return Ok(());
    }
    let kept = Kept {
        grown: grown(alloc, template.number, template.part, chosen)?,
        size: task.size,
        row: row.into_values(alloc)?,
    };
    filling.keep(task, template.nonterminal, hash, kept)
}
