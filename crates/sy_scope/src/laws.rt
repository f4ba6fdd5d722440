// Laws of files: all that a file asks fits, and each function of a question has a name.
ghost use Rattle.sy_scope.specs.Laws.{StepsKeepSound, FilesFit};
ghost use Rattle.sy_scope.specs.Titled.{FilesTitled};

/// A command keeps a context sound.
pub fn steps_keep_sound()
    ensures { StepsKeepSound }
{}

/// All terms and grammars of a file's questions fit.
pub fn files_fit()
    ensures { FilesFit }
{}

/// A file that is read asks at most 16 questions, and its functions and definitions, with their arguments, have their
/// names in each of these.
pub fn files_titled()
    ensures { FilesTitled }
{}
