// Why replies give nothing: the first that is refused, or want of memory.
ghost use Rattle.std.specs.Prelude.{◌≡◌};

use crate::refused::ReplyRefused;
use std::alloc::{AllocError, AllocFailed};

/// Why replies give no statements.
#[derive(Clone, Copy, Debug, PartialEq, Eq)]
pub enum ReplyEnd {
    /// The first reply that is refused, and its first condition that doesn't hold.
    Refused(ReplyRefused),
    /// Memory was wanted.
    Want,
}

impl From<AllocError> for ReplyEnd {
    ghost use Rattle.sy_reply.specs.declared.end.ReplyEnd.TheVariants.{Want as WantOfMemory};

    ghost from_gives = { λ _ end. end ≡ WantOfMemory };

    fn from(_: AllocError) -> ReplyEnd {
        ReplyEnd::Want
    }
}

impl<T: Drop> From<AllocFailed<T>> for ReplyEnd {
    ghost use Rattle.sy_reply.specs.declared.end.ReplyEnd.TheVariants.{Want as WantOfMemory};

    ghost from_gives = { λ _ end. end ≡ WantOfMemory };

    fn from(_: AllocFailed<T>) -> ReplyEnd {
        ReplyEnd::Want
    }
}
