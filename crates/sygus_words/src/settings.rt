// What the words of a command line ask for.
ghost use Rattle.std.specs.Prelude.{◌≡◌};
ghost use Rattle.std.specs.String.{string_bytes};
ghost use Rattle.sygus_words.specs.declared.settings.WordFault.TheVariants.{Want};

use std::alloc::{AllocError, AllocFailed};
use std::marker::Model;
use sy_query_limits::Limits;
use thiserror::Error;

/// What is done with the file.
#[derive(Clone, Copy, Debug, PartialEq, Eq)]
pub enum Mode {
    /// Each `check-synth` is solved.
    Solve,
    /// So it is, by members of the least sum of sizes.
    Least,
    /// The replies that follow the problems in the file are judged.
    Check,
    /// So they are, by the proofs that follow them.
    Recheck,
    /// Of each such reply the clauses are written that say that it is no solution.
    Clauses,
    /// No file is read: the problem that is made from a number of at most 999,999,999 is solved.
    Drill(u32),
}

/// The name of a file, which contracts see as its bytes. The name `-` means standard input.
#[derive(Drop)]
pub struct FileName {
    name: String,
}

impl Model for FileName {
    ghost use Rattle.std.specs.Prelude.{List, ℕ};
    ghost use Rattle.std.specs.String.{string_bytes};

    ghost Value = { List ℕ };

    ghost view = { λ f. string_bytes f.name };
}

impl FileName {
    /// The name with these bytes.
    pub fn new(name: String) -> FileName
        ensures { result ≡ string_bytes name }
    {
        FileName { name }
    }

    /// The name as text.
    pub fn as_str(&self) -> &str
        ensures { result.now ≡ self.now }
    {
        self.name.as_str()
    }
}

/// What the words of a command line ask for.
#[derive(Drop)]
pub struct Settings {
    pub mode: Mode,
    pub limits: Limits,
    /// Whether each solution comes with its proof, in mode `solve` alone.
    pub proofs: bool,
    pub file: FileName,
}

/// Why words give no settings.
#[derive(Clone, Copy, Debug, PartialEq, Eq, Error)]
pub enum WordFault {
    /// The words aren't a command line of the program.
    #[error("the words are refused")]
    Refused,
    /// No memory was left.
    #[error("want of memory")]
    Want,
}

impl From<AllocError> for WordFault {
    ghost from_gives = { λ _ e. e ≡ Want };

    fn from(_e: AllocError) -> WordFault {
        WordFault::Want
    }
}

impl<T: Drop> From<AllocFailed<T>> for WordFault {
    ghost from_gives = { λ _ e. e ≡ Want };

    fn from(_e: AllocFailed<T>) -> WordFault {
        WordFault::Want
    }
}
