// Why a reply is refused.
ghost use Rattle.std.specs.Prelude.{◌≡◌};
ghost use Rattle.sy_reply.specs.StatementsLines.{number_of_reply_cause};

use sy_scope_causes::Cause;
use sy_text_items::{Place, TextFault};

/// The condition of a reply that doesn't hold.
#[derive(Clone, Copy, Debug, PartialEq, Eq)]
pub enum ReplyCause {
    /// A reply is missing, or there is one more than there are `check-synth` commands.
    Count,
    /// The text can't be read.
    Text(TextFault),
    /// The reply is neither `fail` nor `infeasible` nor a list of definitions `(define-fun name ((x s) ..) s t)`.
    Shape,
    /// A definition of no function to be found, or of one that was defined before; or one is missing.
    Name,
    /// The arguments or the sort of a definition aren't those of its function, or the name of an argument is reserved
    /// or repeated.
    Signature,
    /// The body of a definition can't be read.
    Term(Cause),
    /// The item behind a list of definitions is missing, or isn't a proof of the logic.
    ProofShape,
}

/// The first reply that is refused, by the number of its `check-synth`, counted from 1, and its first condition that
/// doesn't hold.
#[derive(Clone, Copy, Debug, PartialEq, Eq)]
pub struct ReplyRefused {
    pub check: u32,
    pub place: Place,
    pub cause: ReplyCause,
}

/// The number of the cause, from 21 to 27; the causes of commands have the numbers below.
#[tactic(auto, unfolding(crate::specs::StatementsLines::number_of_reply_cause))]
pub fn reply_cause_number(cause: &ReplyCause) -> u8
    ensures { result ≡ number_of_reply_cause cause.now }
{
    match cause {
        ReplyCause::Text(_) => 21,
        ReplyCause::Shape => 22,
        ReplyCause::Name => 23,
        ReplyCause::Signature => 24,
        ReplyCause::Term(_) => 25,
        ReplyCause::Count => 26,
        ReplyCause::ProofShape => 27,
    }
}
