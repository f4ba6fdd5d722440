// Why a command is refused.
ghost use Rattle.std.specs.Prelude.{◌≡◌};
ghost use Rattle.sy_scope_causes.specs.Causes.{number_of_cause};

use sy_text_items::{Place, TextFault};

/// The condition of a command that doesn't hold.
#[derive(Clone, Copy, Debug, PartialEq, Eq)]
pub enum Cause {
    /// The text can't be read.
    Text(TextFault),
    /// No command of the profile has this name.
    CommandNotInProfile,
    /// The number or the kinds of the parts aren't those that are asked for.
    Shape,
    /// The logic is unknown, was set before, or wasn't set.
    Logic,
    /// A feature that isn't in the profile is switched on.
    Feature,
    /// A sort that isn't in the logic and isn't declared.
    UnknownSort,
    /// A width, an index or the width of a result is out of range.
    Width,
    /// A name that isn't declared, or can't be used there.
    UnknownName,
    /// A name that is reserved or taken.
    NameTaken,
    /// The number or the sorts of the arguments don't fit, or the term has another sort than is asked for.
    SortMismatch,
    /// A product of two factors that aren't constants.
    Nonlinear,
    /// A literal that its sort doesn't hold.
    LiteralRange,
    /// A function to be found, where none may stand.
    FunctionNotHere,
    /// A group of rules that isn't the predeclared one.
    Predeclared,
    /// A function of another form than an invariant problem asks for.
    InvShape,
    /// More of something than the profile allows.
    TooMany,
}

/// The first command that is refused, counted from 1, and its first condition that doesn't hold.
#[derive(Clone, Copy, Debug, PartialEq, Eq)]
pub struct Refused {
    pub command: u32,
    pub place: Place,
    pub cause: Cause,
}

/// The number of the cause, by the order in which the causes stand above, from 1.
#[tactic(auto, unfolding(crate::specs::Causes::number_of_cause))]
pub fn cause_number(c: &Cause) -> u8
    ensures { result ≡ number_of_cause c.now }
{
    match c {
        Cause::Text(_) => 1,
        Cause::CommandNotInProfile => 2,
        Cause::Shape => 3,
        Cause::Logic => 4,
        Cause::Feature => 5,
        Cause::UnknownSort => 6,
        Cause::Width => 7,
        Cause::UnknownName => 8,
        Cause::NameTaken => 9,
        Cause::SortMismatch => 10,
        Cause::Nonlinear => 11,
        Cause::LiteralRange => 12,
        Cause::FunctionNotHere => 13,
        Cause::Predeclared => 14,
        Cause::InvShape => 15,
        Cause::TooMany => 16,
    }
}
