// Offering one leaf.
ghost use Rattle.std.specs.Prelude.{◌≡◌, ◌<◌, length, IfErr, OnOk};
ghost use Rattle.sy_terms.specs.Denoted.{expr_of};
ghost use Rattle.sy_grammar_base.specs.Trees.{Derives, tree_size};
ghost use Rattle.sy_grammar_base.specs.Grown.{tree_of};
ghost use Rattle.sy_bank_level.specs.Filling.{IsSteady, LevelGrows, TermIsDone};
ghost use Rattle.sy_bank_level.specs.Task.{world, IsStop, level_state_of};
ghost use Rattle.sy_bank_level.specs.Tasks.{IsTask};

use std::rc::Rc;
use sy_bank_columns::{RowEnd, term_row};
use sy_bank_level::{Dropped, Filling, Grown, Kept, Stop, Task, row_hash};
use sy_grammar_base::Derivation;
use sy_terms::{Seq, Term, Theory};

/// Keeps the term of the derivation, which has the task's size, unless a kept term has its row; drops it where it isn't
/// computable.
pub fn offer_leaf<T: Theory>(
    task: &Task<T>,
    filling: &mut Filling<T>,
    nonterminal: u32,
    term: Term<T>,
    derivation: Derivation<T>,
) -> Result<(), Stop<T>>
    requires task { IsTask T.owned T.numeric T.denotes task.now }
    requires known { nonterminal < length (world T.owned T.denotes task.now).syntax.nonterminals }
    requires steady { IsSteady (world T.owned T.denotes task.now) (level_state_of T.denotes filling.old) }
    requires derives { Derives (world T.owned T.denotes task.now).syntax nonterminal
        (tree_of T.denotes derivation) (expr_of T.denotes term) }
    requires sized { tree_size (world T.owned T.denotes task.now).syntax
        (world T.owned T.denotes task.now).pool nonterminal (tree_of T.denotes derivation) ≡ task.now.size }
    ensures steady { OnOk result (IsSteady (world T.owned T.denotes task.now) (level_state_of T.denotes filling.new)) }
    ensures grows { OnOk result (LevelGrows (world T.owned T.denotes task.now)
        (level_state_of T.denotes filling.old) (level_state_of T.denotes filling.new)) }
    ensures done { OnOk result (TermIsDone (world T.owned T.denotes task.now)
        (level_state_of T.denotes filling.new) nonterminal task.now.size (expr_of T.denotes term)) }
    ensures stop { IfErr result
        (IsStop T.denotes (world T.owned T.denotes task.now) (level_state_of T.denotes filling.new)) }
{
    let alloc = task.alloc;
    let row = match term_row(alloc, task.defs, task.points, &term) {
        Ok(row) => row,
        Err(RowEnd::Lost(point)) => {
            filling.lose(task, Dropped { term, point });
            return Ok(());
        }
        Err(RowEnd::Want) => return Err(Stop::Want),
    };
    let hash = row_hash::<T>(nonterminal, row.as_slice());
    if filling.has_row(task.levels, nonterminal, hash, row.as_slice()) {
        return Ok(());
    }
    let kept = Kept {
        grown: Rc::new(alloc, Grown::Leaf(term, derivation))?,
        size: task.size,
        row: Seq::from(row),
    };
    filling.keep(task, nonterminal, hash, kept)
}
