// The program's command line, as `clap` reads it.
ghost use Rattle.std.specs.Prelude.{◌≡◌, IfOk, false};
ghost use Rattle.clap.specs.Words.{app_of, rule_of};
ghost use Rattle.sygus_words.specs.CommandLine as line;

use clap::{Arg, ArgAction, Command};
use std::alloc::{AllocError, Global};

/// An option `--NAME VALUE` or `--NAME=VALUE`.
fn option<'a>(alloc: Global, name: &'a str) -> Arg<'a>
    ensures rule { rule_of result ≡ line.option_rule name.entry.now }
    ensures local { result.global ≡ false }
{
    Arg::new(alloc, name).long(name).action(ArgAction::Set)
}

/// An option without a value.
fn flag<'a>(alloc: Global, name: &'a str) -> Arg<'a>
    ensures rule { rule_of result ≡ line.flag_rule name.entry.now }
    ensures local { result.global ≡ false }
{
    Arg::new(alloc, name).long(name).action(ArgAction::SetTrue)
}

/// The name of the file, which has to be there.
fn file<'a>(alloc: Global) -> Arg<'a>
    ensures rule { rule_of result ≡ line.file_rule }
    ensures local { result.global ≡ false }
{
    Arg::new(alloc, "FILE")
        .action(ArgAction::Set)
        .required(true)
}

/// `sygus [OPTIONS] FILE`, without the flags for help and version.
pub fn command<'a>(alloc: Global) -> Result<Command<'a>, AllocError>
    ensures { IfOk result (λ c. app_of c ≡ line.sygus) }
{
    let command = Command::new(alloc, "sygus")
        .disable_help_flag(true)
        .disable_version_flag(true)
        .arg(option(alloc, "mode"))?
        .arg(option(alloc, "size"))?
        .arg(option(alloc, "rounds"))?
        .arg(option(alloc, "points"))?
        .arg(option(alloc, "bank"))?
        .arg(option(alloc, "weight"))?
        .arg(option(alloc, "clauses"))?
        .arg(option(alloc, "nodes"))?
        .arg(option(alloc, "pivots"))?
        .arg(flag(alloc, "proofs"))?
        .arg(file(alloc))?;
    Ok(command)
}
