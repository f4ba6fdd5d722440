// The law of drills: the file of each number is in the profile, and asks for one function by its examples.
ghost use Rattle.sygus_drills.specs.Asked.{FilesAreShort, FilesAsk};

/// The file of each number is read. It asks one question over bit vectors: for a function whose values at the number's
/// arguments are those of its examples.
pub fn files_ask()
    ensures short { FilesAreShort }
    ensures asks { FilesAsk }
{}
