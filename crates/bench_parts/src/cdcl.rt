// A formula in the DIMACS form, which is solved. The words are a file's name, or `-` for standard input, the most
// clauses to learn, and, where times are wanted, the word `times`. It prints what was found, how many clauses were
// learned by how many resolutions, whether the log of a refutation was accepted, and the microseconds of each.
ghost use Rattle.std.specs.Prelude.{◌<◌, ◌^◌, length};
ghost use Rattle.sy_clauses.specs.Clauses.{VarsFit};

use crate::dimacs::read_formula;
use crate::words::{REFUSED, WANT, word};
use std::alloc::Global;
use std::str;
use std::time::CpuClock;
use sy_cdcl::{Solved, solve};
use sy_clauses::{Cnf, Log, check};
use sy_io::{FileSource, read_whole};
use sy_seq::Want;

/// The most bytes that are read.
const LIMIT: usize = 268_435_456;

/// The resolutions of a log's lines.
fn resolutions(log: &Log) -> u64 {
    let mut count: u64 = 0;
    for line in log.lines.as_slice() {
        count = count.saturating_add(line.steps.len() as u64);
    }
    count
}

/// The microseconds of processor time that were used so far, or 0 where there is no clock or no times are wanted.
fn used(rt: &HostRuntime, timed: bool) -> u64 {
    if !timed {
        return 0;
    }
    match rt.process_cpu_time() {
        Ok(time) => time
            .as_secs()
            .saturating_mul(1_000_000)
            .saturating_add(time.subsec_micros() as u64),
        Err(_) => 0,
    }
}

/// Prints how many clauses were learned by how many resolutions.
fn print_learned(rt: &impl Print, answer: &str, log: &Log) {
    let lines = log.lines.len();
    let steps = resolutions(log);
    let _ = print!(rt; "{answer} {lines} learned {steps} resolutions");
}

/// Checks the log of a refutation, and prints what came of it.
fn print_checked(rt: &HostRuntime, cnf: &Cnf, log: &Log, timed: bool) -> Result<(), Want> {
    let start = used(rt, timed);
    let accepted = check(rt.alloc(), cnf, log)?;
    let checking = used(rt, timed).saturating_sub(start);
    print_learned(rt, "UNSAT", log);
    let _ = print!(rt; " {accepted} accepted {checking} checking");
    Ok(())
}

/// Checks the log of a refutation, and prints what was found.
fn print_found(rt: &HostRuntime, cnf: &Cnf, solved: &Solved, timed: bool) -> Result<(), Want> {
    match solved {
        Solved::Refuted(log) => print_checked(rt, cnf, log, timed),
        Solved::Model(values) => {
            let count = values.len();
            let _ = print!(rt; "SAT {count} values");
            Ok(())
        }
        Solved::Fuel(log) => {
            print_learned(rt, "FUEL", log);
            Ok(())
        }
    }
}

/// Solves the formula, checks the log of a refutation, and prints what came of it.
fn measure(rt: &HostRuntime, cnf: &Cnf, fuel: u32, timed: bool) -> Result<(), Want>
    requires vars { VarsFit cnf.now }
    requires clauses_fit { length cnf.now.clauses < 2 ^ 31 }
    requires fuel_fits { fuel < 2 ^ 31 }
{
    let start = used(rt, timed);
    let solved = solve(rt.alloc(), cnf, fuel)?;
    let solving = used(rt, timed).saturating_sub(start);
    let printed = print_found(rt, cnf, &solved, timed);
    let _ = println!(rt; " {solving} solving");
    printed
}

/// Solves the formula that the bytes are; the status.
fn measure_bytes(rt: &HostRuntime, bytes: &[u8], fuel: u32, timed: bool) -> Result<u8, Want>
    requires fuel_fits { fuel < 2 ^ 31 }
{
    let Ok(text) = str::from_utf8(bytes) else {
        return Ok(REFUSED);
    };
    let Some(cnf) = read_formula(rt.alloc(), text)? else {
        return Ok(REFUSED);
    };
    measure(rt, &cnf, fuel, timed)?;
    Ok(0)
}

/// Solves the formula of the file under the name; the status.
fn measure_file(rt: &HostRuntime, name: &str, fuel: u32, timed: bool) -> Result<u8, Want>
    requires fuel_fits { fuel < 2 ^ 31 }
{
    let mut source = FileSource::new(rt);
    match read_whole(rt.alloc(), &mut source, name, LIMIT) {
        Ok(bytes) => measure_bytes(rt, bytes.as_slice(), fuel, timed),
        Err(_) => Ok(REFUSED),
    }
}

/// Solves the formula of the file that the words name.
pub(crate) fn run(rt: &HostRuntime, words: &[String]) -> u8 {
    let Ok(fuel) = word(words, 2).parse::<u32>() else {
        return REFUSED;
    };
    if fuel >= 2_147_483_648 {
        return REFUSED;
    }
    let timed = word(words, 3) == "times";
    measure_file(rt, word(words, 1), fuel, timed).unwrap_or(WANT)
}
