// Bodies of functions that others give, read as those of definitions.
ghost use Rattle.sy_scope_steps.specs.Sizes.{MeasuresAgree};

/// The term that a phrase becomes has the phrase's unfolded size and depth, so a body that is given measures as it does
/// where a file defines it.
pub fn measures_agree()
    ensures { MeasuresAgree }
{}
