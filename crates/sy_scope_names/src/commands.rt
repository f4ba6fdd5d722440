// Commands by their names.
ghost use Rattle.std.specs.Prelude.{◌≡◌};
ghost use Rattle.sy_scope_names.specs.Requests as spec;

use sy_forms_items::is;

/// A command of the profile.
#[derive(Clone, Copy, Debug, PartialEq, Eq)]
pub enum Command {
    SetLogic,
    SetFeature,
    SetInfo,
    SetOption,
    DeclareVar,
    DefineSort,
    DefineFun,
    SynthFun,
    SynthInv,
    Constraint,
    Assume,
    InvConstraint,
    CheckSynth,
}

/// The command of the profile that has this name; `None` at any other name.
pub fn command_named(name: &[u8]) -> Option<Command>
    ensures { result ≡ spec.command_named name.now }
{
    if is(name, b"set-logic") {
        Some(Command::SetLogic)
    } else if is(name, b"set-feature") {
        Some(Command::SetFeature)
    } else if is(name, b"set-info") {
        Some(Command::SetInfo)
    } else if is(name, b"set-option") {
        Some(Command::SetOption)
    } else if is(name, b"declare-var") {
        Some(Command::DeclareVar)
    } else if is(name, b"define-sort") {
        Some(Command::DefineSort)
    } else if is(name, b"define-fun") {
        Some(Command::DefineFun)
    } else if is(name, b"synth-fun") {
        Some(Command::SynthFun)
    } else if is(name, b"synth-inv") {
        Some(Command::SynthInv)
    } else if is(name, b"constraint") {
        Some(Command::Constraint)
    } else if is(name, b"assume") {
        Some(Command::Assume)
    } else if is(name, b"inv-constraint") {
        Some(Command::InvConstraint)
    } else if is(name, b"check-synth") {
        Some(Command::CheckSynth)
    } else {
        None
    }
}
