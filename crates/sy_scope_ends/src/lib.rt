// Why a file gives nothing: its first faulty command, by its number, or that memory ran out.
#![tactic(auto)]

ghost use Rattle.std.specs.Prelude.{◌≡◌};
ghost use Rattle.sy_scope_ends.specs.Ends.{ended_as, numbered_as};

use std::alloc::AllocError;
use sy_forms_items::ReadEnd;
use sy_scope_causes::Refused;

/// Why a file gives no job.
#[derive(Clone, Copy, Debug, PartialEq, Eq)]
pub enum ScopeEnd {
    /// The file has a fault: its first faulty command, and that command's first condition that doesn't hold.
    Refused(Refused),
    /// Memory was wanted.
    Want,
}

impl From<AllocError> for ScopeEnd {
    ghost use Rattle.sy_scope_ends.specs.declared.ScopeEnd.TheVariants.{Want as WantOfMemory};

    ghost from_gives = { λ _ end. end ≡ WantOfMemory };

    fn from(_: AllocError) -> ScopeEnd {
        ScopeEnd::Want
    }
}

/// Why the command of this number gives nothing.
pub fn ended(command: u32, end: ReadEnd) -> ScopeEnd
    ensures { result ≡ ended_as command end }
{
    match end {
        ReadEnd::Refused(place, cause) => ScopeEnd::Refused(Refused {
            command,
            place,
            cause,
        }),
        ReadEnd::Want => ScopeEnd::Want,
    }
}

/// What the command of this number gives, where its step gave this: a fault of it is one of the file.
pub fn numbered(command: u32, stepped: Result<(), ReadEnd>) -> Result<(), ScopeEnd>
    ensures { result ≡ numbered_as command stepped }
{
    match stepped {
        Ok(()) => Ok(()),
        Err(end) => Err(ended(command, end)),
    }
}
