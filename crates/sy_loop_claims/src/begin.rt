// The size at which a search begins.
ghost use Rattle.std.specs.Prelude.{◌≤◌, List};
ghost use Rattle.sy_grammar_base.specs.Questions.{Question};
ghost use Rattle.sy_points.specs.Asked.{Asked};
ghost use Rattle.sy_loop_spec.specs.declared.reach.Reach.{Reach as Reaches};
ghost use Rattle.sy_loop_spec.specs.Histories.{Counterexample};
ghost use Rattle.sy_loop_spec.specs.Refuting.{AreDoneBelow};

use sy_query_limits::Limits;

/// The size that a search tries first: whatever it knows, below that there is nothing to be tried.
pub fn first_size(_limits: &Limits) -> u32
    ensures within { result ≤ _limits.now.size }
    ensures done { (reach : Reaches) (question : Question) (history : List Counterexample) (asked : Asked) →
        AreDoneBelow reach question history asked result }
{
    0
}
