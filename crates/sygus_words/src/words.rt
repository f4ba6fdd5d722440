// Reading the words of a command line.
ghost use Rattle.std.specs.Prelude.{◌≡◌, ◌≤◌, ◌<◌, ◌^◌, ℕ, Bool, [], map, codes, IfOk, IfErr, MatchOption};
ghost use Rattle.std.specs.Fmt.{decimal};
ghost use Rattle.std.specs.String.{string_bytes};
ghost use Rattle.clap.specs.Words.{fault_of, first_value, found_of, matches_of, rows_of};
ghost use Rattle.sygus_words.specs.Numbers.{LimitIs};
ghost use Rattle.sygus_words.specs.CommandLine.{sygus, greatest_drill, DrillIs, ModeIs, ProofsAre, AreLimits, AreSettings, IsReading, WordsAreRefused};
ghost use Rattle.sygus_words.specs.declared.settings.Settings.{Settings};
ghost use Rattle.sygus_words.specs.declared.settings.WordFault.TheVariants.{Refused};
ghost use Rattle.sygus_words.specs.declared.settings.Mode.{Mode};
ghost use Rattle.sy_query_limits.specs.declared.Limits.{Limits};

use crate::numbers::{limit_of, number};
use crate::options::command;
use crate::settings::{FileName, Mode, Settings, WordFault};
use clap::ArgMatches;
use clap::error::ErrorKind;
use std::alloc::Global;
use sy_query_limits::Limits;

/// The value of an option, from 1 to `greatest`, or its default.
fn limit(matches: &ArgMatches<'_>, name: &str, default: u32, greatest: u32) -> Option<u32>
    ensures { MatchOption result ((n : ℕ) → LimitIs default greatest (first_value (found_of matches.now) name.now) n →
        ⊥)
        (λ n. LimitIs default greatest (first_value (found_of matches.now) name.now) n) }
{
    limit_of(matches.get_str(name), default, greatest)
}

/// The limits, each by its option.
fn limits(matches: &ArgMatches<'_>) -> Option<Limits>
    ensures { MatchOption result ((l : Limits) → AreLimits (first_value (found_of matches.now)) l → ⊥)
        (λ l. AreLimits (first_value (found_of matches.now)) l) }
{
    Some(Limits {
        size: limit(matches, "size", 12, 64)?,
        rounds: limit(matches, "rounds", 256, 1_024)?,
        points: limit(matches, "points", 512, 1_024)?,
        bank: limit(matches, "bank", 20_000, 40_000)?,
        weight: limit(matches, "weight", 400_000, 1_000_000)?,
        clauses: limit(matches, "clauses", 100_000, 400_000)?,
        nodes: limit(matches, "nodes", 4_000, 8_000)?,
        pivots: limit(matches, "pivots", 10_000, 100_000)?,
    })
}

/// The number of a drill, of which the text is the decimal spelling, without sign and leading zeros.
fn drill_number(text: &str) -> Option<u32>
    ensures { MatchOption result ((n : ℕ) → text.now ≡ decimal n → n ≤ greatest_drill → ⊥)
        (λ n. (text.now ≡ decimal n) × (n ≤ greatest_drill)) }
{
    if text == "0" {
        Some(0)
    } else {
        number(text, 999_999_999)
    }
}

/// The number of a drill, which stands in FILE's place.
fn drill(matches: &ArgMatches<'_>) -> Option<u32>
    ensures { MatchOption result ((n : ℕ) → DrillIs (first_value (found_of matches.now) (codes "FILE")) n → ⊥)
        (λ n. DrillIs (first_value (found_of matches.now) (codes "FILE")) n) }
{
    let file = matches.get_str("FILE")?;
    drill_number(file)
}

/// The mode, which is `solve` where none is named.
fn mode(matches: &ArgMatches<'_>) -> Option<Mode>
    ensures { MatchOption result
        ((m : Mode) → ModeIs (first_value (found_of matches.now) (codes "mode"))
        (first_value (found_of matches.now) (codes "FILE")) m → ⊥)
        (λ m. ModeIs (first_value (found_of matches.now) (codes "mode"))
        (first_value (found_of matches.now) (codes "FILE")) m) }
{
    match matches.get_str("mode") {
        None | Some("solve") => Some(Mode::Solve),
        Some("least") => Some(Mode::Least),
        Some("check") => Some(Mode::Check),
        Some("recheck") => Some(Mode::Recheck),
        Some("clauses") => Some(Mode::Clauses),
        Some("drill") => drill(matches).map(Mode::Drill),
        Some(_) => None,
    }
}

/// Whether proofs are asked for, which only mode `solve` gives.
fn proofs(matches: &ArgMatches<'_>, mode: Mode) -> Option<bool>
    ensures { MatchOption result
        ((b : Bool) → ProofsAre (first_value (found_of matches.now) (codes "proofs")) mode b → ⊥)
        (λ b. ProofsAre (first_value (found_of matches.now) (codes "proofs")) mode b) }
{
    match (matches.get_str("proofs"), mode) {
        (Some("true"), Mode::Solve) => Some(true),
        (Some("true"), _) => None,
        (_, _) => Some(false),
    }
}

/// What the matches ask for.
fn settings(alloc: Global, matches: &ArgMatches<'_>) -> Result<Settings, WordFault>
    ensures ok { IfOk result (λ s. AreSettings (first_value (found_of matches.now)) s) }
    ensures refused { IfErr result
        (λ e. e ≡ Refused → (s : Settings) → AreSettings (first_value (found_of matches.now)) s → ⊥) }
{
    let Some(mode) = mode(matches) else {
        return Err(WordFault::Refused);
    };
    let Some(limits) = limits(matches) else {
        return Err(WordFault::Refused);
    };
    let Some(proofs) = proofs(matches, mode) else {
        return Err(WordFault::Refused);
    };
    let Some(file) = matches.get_str("FILE") else {
        return Err(WordFault::Refused);
    };
    let file = FileName::new(String::from_str(alloc, file)?);
    Ok(Settings {
        mode,
        limits,
        proofs,
        file,
    })
}

/// What `clap` makes of the words.
fn parsed<'a>(alloc: Global, words: &'a [String]) -> Result<ArgMatches<'a>, WordFault>
    ensures ok { IfOk result (λ m. (fault_of sygus (map string_bytes words.entry.now) ≡ []) ×
        (rows_of (found_of m) ≡ matches_of sygus (map string_bytes words.entry.now))) }
    ensures refused { IfErr result (λ e. e ≡ Refused → fault_of sygus (map string_bytes words.entry.now) ≡ [] → ⊥) }
{
    match command(alloc)?.try_get_matches_from(words) {
        Ok(matches) => Ok(matches),
        Err(error) => match error.kind() {
            ErrorKind::OutOfMemory => Err(WordFault::Want),
            _ => Err(WordFault::Refused),
        },
    }
}

/// The settings that the words of a command line ask for; the first word is the program's name. An option is written
/// `--NAME VALUE` or `--NAME=VALUE`, and the one word that is no option is the name of the file. `Refused` comes where
/// `clap` refuses the words, where the mode is none of `solve`, `least`, `check`, `recheck`, `clauses` and `drill`,
/// where the value of a limit isn't the decimal spelling, without sign and leading zeros, of a number from 1 to its
/// greatest value, where `--proofs` stands in another mode than `solve`, or where in mode `drill` the name of the file
/// isn't so spelled a number from 0 to 999,999,999:
///
/// | Option | Default | Greatest |
/// |---|---|---|
/// | `--size` | 12 | 64 |
/// | `--rounds` | 256 | 1,024 |
/// | `--points` | 512 | 1,024 |
/// | `--bank` | 20,000 | 40,000 |
/// | `--weight` | 400,000 | 1,000,000 |
/// | `--clauses` | 100,000 | 400,000 |
/// | `--nodes` | 4,000 | 8,000 |
/// | `--pivots` | 10,000 | 100,000 |
pub fn read_words(alloc: Global, words: &[String]) -> Result<Settings, WordFault>
    ensures ok { IfOk result (λ s. IsReading (map string_bytes words.now) s) }
    ensures refused { IfErr result (λ e. WordsAreRefused (map string_bytes words.now) e) }
{
    let matches = parsed(alloc, words)?;
    let settings = settings(alloc, &matches)?;
    Ok(settings)
}
