// Sets of clauses with what the solver finds, resolution logs with what the checker says of them, and long ones of
// both.
ghost use Rattle.std.specs.Prelude.{◌≡◌, ◌<◌, ◌^◌, IsTrue, Some, ℕ, length, slice_get};
ghost use Rattle.sy_clauses.specs.declared.Lit.{Lit};
ghost use Rattle.sy_clauses.specs.Clauses.{VarsFit};

use crate::rows::{field, number};
use std::alloc::Global;
use std::process::Abort;
use sy_cdcl::{Solved, solve};
use sy_clauses::{Cnf, Line, Lit, Log, Step, check, trimmed};
use sy_terms::Seq;

/// The clause of these literals.
fn clause(rt: &impl Abort, alloc: Global, literals: &[(u32, bool)]) -> Seq<Lit> {
    let mut out = Seq::new(alloc);
    for (var, positive) in literals {
        let (var, positive) = (*var, *positive);
        out.push(Lit { var, positive }).expect(rt, "a literal");
    }
    out
}

/// The clause of these letters, of which `a` is the first variable, and `A` its negation.
fn lettered(rt: &impl Abort, alloc: Global, letters: &str) -> Seq<Lit> {
    let mut out = Seq::new(alloc);
    for letter in letters.as_bytes() {
        let positive = letter.is_ascii_lowercase();
        let first = if positive { b'a' } else { b'A' };
        let var = u32::from(letter.wrapping_sub(first));
        out.push(Lit { var, positive }).expect(rt, letters);
    }
    out
}

/// The row's formula: how many variables it has, and its clauses, with spaces between them.
fn formula(rt: &impl Abort, alloc: Global, row: &str) -> Cnf {
    let mut clauses = Seq::new(alloc);
    for letters in field(row, 1).split(' ') {
        let clause = lettered(rt, alloc, letters);
        clauses.push(clause).expect(rt, row);
    }
    let vars = number(row, 0);
    Cnf { vars, clauses }
}

/// The line of this text: its first clause, and its steps, each with the digits of a variable and of a clause.
fn line(rt: &impl Abort, alloc: Global, text: &str) -> Line {
    let (first, digits) = text.split_once(' ').unwrap_or((text, ""));
    let mut steps = Seq::new(alloc);
    for word in digits.split_whitespace() {
        let number: u32 = word.parse().unwrap_or(0);
        let (var, with) = (number / 10, number % 10);
        steps.push(Step { var, with }).expect(rt, text);
    }
    let first = first.parse().unwrap_or(0);
    Line { first, steps }
}

/// The log of this text, with semicolons between its lines.
fn log(rt: &impl Abort, alloc: Global, text: &str) -> Log {
    let mut lines = Seq::new(alloc);
    if text.is_empty() {
        return Log { lines };
    }
    for text in text.split(';') {
        let line = line(rt, alloc, text);
        lines.push(line).expect(rt, text);
    }
    Log { lines }
}

// whether each literal's variable is below `vars`
fn clause_fits(literals: &[Lit], vars: u32) -> bool
    ensures { IsTrue result → (k : ℕ) (l : Lit) → slice_get literals.now k ≡ Some l → l.var < vars }
{
    for literal in literals {
        if literal.var >= vars {
            return false;
        }
    }
    true
}

// whether the formula is one that the solver takes
fn fits(cnf: &Cnf) -> bool
    ensures vars { IsTrue result → VarsFit cnf.now }
    ensures clauses_fit { IsTrue result → length cnf.now.clauses < 2 ^ 31 }
{
    for clause in cnf.clauses.as_slice() {
        if !clause_fits(clause.as_slice(), cnf.vars) {
            return false;
        }
    }
    cnf.clauses.len() < 2_147_483_648
}

/// Whether the values are these signs, 1 for true.
fn are_values(values: &[bool], signs: &str) -> bool {
    let mut are_told = values.len() == signs.len();
    for (value, sign) in values.iter().zip(signs.as_bytes()) {
        are_told &= *value == (*sign == b'1');
    }
    are_told
}

/// Whether the solver that may learn so many clauses finds what is told: `refuted`, by a log that the checker accepts;
/// the values of a model; or `spent` and how many clauses were learned, where no more are allowed.
fn finds(rt: &impl Abort, alloc: Global, cnf: &Cnf, learned: u32, told: &str) -> bool {
    assert!(rt; learned < 2_147_483_648);
    assert!(rt; fits(cnf));
    let solved = solve(alloc, cnf, learned).expect(rt, told);
    let is_found = match &solved {
        Solved::Refuted(log) => told == "refuted" && check(alloc, cnf, log).expect(rt, told),
        Solved::Model(values) => are_values(values.as_slice(), told),
        Solved::Fuel(log) => match told.strip_prefix("spent ") {
            Some(count) => count.parse::<usize>() == Ok(log.lines.len()),
            None => false,
        },
    };
    drop(solved);
    is_found
}

/// Whether the solver finds what the row tells.
pub fn is_found(rt: &impl Abort, alloc: Global, row: &str) -> bool {
    let cnf = formula(rt, alloc, row);
    finds(rt, alloc, &cnf, number(row, 2), field(row, 3))
}

/// Whether the checker accepts the row's log of its formula just where the row tells so, and then also as many lines of
/// it as the row tells, those that the last one needs.
pub fn is_right(rt: &impl Abort, alloc: Global, row: &str) -> bool {
    let cnf = formula(rt, alloc, row);
    let log = log(rt, alloc, field(row, 2));
    if !check(alloc, &cnf, &log).expect(rt, row) {
        return field(row, 3) == "refused";
    }
    let shorter = trimmed(alloc, &cnf, &log).expect(rt, row);
    let is_shorter = shorter.lines.len() == number(row, 4) as usize;
    is_shorter && field(row, 3) == "accepted" && check(alloc, &cnf, &shorter).expect(rt, row)
}

/// Appends that the first variable, if it is true, makes the second true.
fn append_link(rt: &impl Abort, alloc: Global, clauses: &mut Seq<Seq<Lit>>, from: u32, to: u32) {
    let clause = clause(rt, alloc, &[(from, false), (to, true)]);
    clauses.push(clause).expect(rt, "a clause");
}

/// A chain of implications over 400,001 variables, its even links last to first and then its odd ones, from a true
/// variable to a contradiction: a scan over all clauses, from either end, gains about two values a pass, so it would
/// need about 200,000 passes.
fn scattered(rt: &impl Abort, alloc: Global) -> Cnf {
    let mut clauses = Seq::new(alloc);
    for k in 0..400_000 {
        let i = if k < 200_000 {
            399_998 - 2 * k
        } else {
            799_999 - 2 * k
        };
        append_link(rt, alloc, &mut clauses, i, i + 1);
    }
    let last = clause(rt, alloc, &[(399_999, false), (400_000, false)]);
    clauses.push(last).expect(rt, "a clause");
    let first = clause(rt, alloc, &[(0, true)]);
    clauses.push(first).expect(rt, "a clause");
    let vars = 400_001;
    Cnf { vars, clauses }
}

/// A chain of implications over 200,001 variables in order, from a true one to a false one.
fn ordered(rt: &impl Abort, alloc: Global) -> Cnf {
    let mut clauses = Seq::new(alloc);
    let first = clause(rt, alloc, &[(0, true)]);
    clauses.push(first).expect(rt, "a clause");
    for i in 0..200_000 {
        append_link(rt, alloc, &mut clauses, i, i + 1);
    }
    let last = clause(rt, alloc, &[(200_000, false)]);
    clauses.push(last).expect(rt, "a clause");
    let vars = 200_001;
    Cnf { vars, clauses }
}

/// The chain's refutation in one line of many steps.
fn whole(rt: &impl Abort, alloc: Global) -> Log {
    let mut steps = Seq::new(alloc);
    for var in 0..200_001 {
        let with = var + 1;
        steps.push(Step { var, with }).expect(rt, "a step");
    }
    let mut lines = Seq::new(alloc);
    lines.push(Line { first: 0, steps }).expect(rt, "a line");
    Log { lines }
}

/// The chain's refutation in many lines of one step.
fn stepwise(rt: &impl Abort, alloc: Global) -> Log {
    let mut lines = Seq::new(alloc);
    for var in 0..200_001 {
        let first = if var == 0 { 0 } else { 200_001 + var };
        let with = var + 1;
        let mut steps = Seq::new(alloc);
        steps.push(Step { var, with }).expect(rt, "a step");
        lines.push(Line { first, steps }).expect(rt, "a line");
    }
    Log { lines }
}

/// Whether the chain in order is refuted by one line, or by one for each step. The time is linear.
pub fn refutes_ordered(rt: &impl Abort, alloc: Global, is_whole: bool) -> bool {
    let log = if is_whole {
        whole(rt, alloc)
    } else {
        stepwise(rt, alloc)
    };
    check(alloc, &ordered(rt, alloc), &log).expect(rt, "a check")
}

/// Whether the solver refutes the long chain.
pub fn refutes_scattered(rt: &impl Abort, alloc: Global) -> bool {
    finds(rt, alloc, &scattered(rt, alloc), 1, "refuted")
}

/// A formula, its number of variables first; how many clauses may be learned, and what is found: of three pigeons in
/// two holes, where pigeon p sits in hole h if variable 2 * p + h is true; of one of two without the first; and of a
/// literal and its negation.
pub const FORMULAS: &str = "\
6|ab cd ef AC AE CE BD BF DF|1000|refuted
6|ab cd ef AC AE CE BD BF DF|1|spent 1
2|ab A|10|01
1|a A|1|refuted
1|a A|0|spent 0
";

/// Formulas with logs, whether these are accepted, and how many lines their last ones need: of one of two and neither;
/// of a literal and its negation; and of an empty clause behind another, which is refuted by no line, and by none that
/// leads away from it.
pub const LOGS: &str = "\
2|ab A B|0 01 12|accepted|1
2|ab A B|1 00 12|accepted|1
2|ab A B|0 12;1 03|accepted|2
2|ab A B|1;0 01;4 12|accepted|2
2|ab A B|0 12;0 01;2;4 15|accepted|3
2|ab A B|0 12;1 03;0 01 12|accepted|1
2|ab A B||refused
2|ab A B|0 01|refused
2|ab A B|0 01 12;1|refused
2|ab A B|0 02|refused
2|ab A B|0 03|refused
2|ab A B|3|refused
2|ab A B|0 12;1 04|refused
1|a A||refused
1|a A|0 01|accepted|1
1|a ||accepted|0
1|a |1|accepted|1
1|a |0|refused
";
