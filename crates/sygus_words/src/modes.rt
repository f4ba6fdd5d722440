// How far the search of each mode goes.
ghost use Rattle.std.specs.Prelude.{◌≡◌, ◌↔◌, IsTrue};
ghost use Rattle.sy_loop_spec.specs.declared.reach.Reach.TheVariants.{Joins};
ghost use Rattle.sygus_words.specs.Reaches.{reach_of};

use crate::settings::Mode;

/// Whether the search of this mode tries conditional trees.
pub fn tries_trees(mode: Mode) -> bool
    ensures { IsTrue result ↔ reach_of mode ≡ Joins }
{
    match mode {
        Mode::Solve => true,
        Mode::Least => false,
        Mode::Check | Mode::Recheck | Mode::Clauses => true,
        Mode::Drill(_) => true,
    }
}
