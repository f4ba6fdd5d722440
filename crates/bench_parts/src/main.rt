// Measurements of parts of the solver: evaluation, grammars, banks, scans, joins, lowerings, forms, trees and clauses.
// The first word says which, the others are its own; further measurements may follow, each after the word `then`.
#![tactic(auto)]

mod bank;
mod cdcl;
mod derive;
mod dimacs;
mod evaluate;
mod lists;
mod lower;
mod random;
mod scan;
mod simplex;
mod terms;
mod trees;
mod unify;
mod words;

use std::process::ExitCode;
use words::{REFUSED, word, words_of};

/// Takes the measurement of this row of words, whose first one names it; the status.
fn measure(rt: &HostRuntime, words: &[String]) -> u8 {
    match word(words, 0) {
        "bank" => bank::run(rt, words),
        "cdcl" => cdcl::run(rt, words),
        "derive" => derive::run(rt, words),
        "evaluate" => evaluate::run(rt, words),
        "lower" => lower::run(rt, words),
        "scan" => scan::run(rt, words),
        "simplex" => simplex::run(rt, words),
        "trees" => trees::run(rt, words),
        "unify" => unify::run(rt, words),
        _ => REFUSED,
    }
}

/// Takes the measurements that the words name one after the other; the greatest of their statuses.
fn measure_each(rt: &HostRuntime, words: &[String]) -> u8 {
    let mut status = 0u8;
    for row in words.split(|word| word.as_str() == "then") {
        status = status.max(measure(rt, row));
    }
    status
}

fn main(rt: HostRuntime) -> ExitCode {
    let status = match words_of(&rt) {
        Ok(words) => match words.as_slice().split_first() {
            Some((_, named)) => measure_each(&rt, named),
            None => REFUSED,
        },
        Err(status) => status,
    };
    ExitCode::from(status)
}
