// The table of clauses with their texts, and the log of a line of one step.
use std::alloc::Global;
use std::process::Abort;
use sy_clauses::{Cnf, Line, Lit, Log, Step};
use sy_proof::{write_clauses, write_log};
use sy_seq::Seq;

/// How many variables there are, clauses of letters with a full stop behind each, of which `a` is the first variable
/// and `A` its negation, and the text; `§` ends a row.
pub const CLAUSES: &str = "\
0||p cnf 0 0§\
3|.|p cnf 3 1
0§\
3|aBc.A.|p cnf 3 2
1 -2 3 0
-1 0§\
26|z.Zz..|p cnf 26 3
26 0
-26 26 0
0";

/// The clause of these letters.
fn clause(rt: &impl Abort, alloc: Global, letters: &str) -> Seq<Lit> {
    let mut out = Seq::new(alloc);
    for letter in letters.as_bytes() {
        let positive = letter.is_ascii_lowercase();
        let first = if positive { b'a' } else { b'A' };
        let var = u32::from(letter.wrapping_sub(first));
        out.push(Lit { var, positive }).expect(rt, letters);
    }
    out
}

/// The clauses of these letters.
fn formula(rt: &impl Abort, alloc: Global, vars: u32, letters: &str) -> Cnf {
    let mut clauses = Seq::new(alloc);
    let Some(most) = letters.strip_suffix('.') else {
        return Cnf { vars, clauses };
    };
    for letters in most.split('.') {
        let clause = clause(rt, alloc, letters);
        clauses.push(clause).expect(rt, letters);
    }
    Cnf { vars, clauses }
}

/// Whether the row's clauses have its text.
pub fn are_written(rt: &impl Abort, alloc: Global, row: &str) -> bool {
    let (vars, rest) = row.split_once('|').unwrap_or((row, ""));
    let (letters, text) = rest.split_once('|').unwrap_or((rest, ""));
    let cnf = formula(rt, alloc, vars.parse().unwrap_or(0), letters);
    let written = write_clauses(alloc, &cnf).expect(rt, row);
    written.as_slice() == text.as_bytes()
}

/// Whether the log whose one line resolves clauses 0 and 1 on variable 0 is written so.
pub fn is_resolved(rt: &impl Abort, alloc: Global) -> bool {
    let mut steps = Seq::new(alloc);
    steps.push(Step { var: 0, with: 1 }).expect(rt, "memory");
    let mut lines = Seq::new(alloc);
    lines.push(Line { first: 0, steps }).expect(rt, "memory");
    let written = write_log(alloc, &Log { lines }).expect(rt, "memory");
    written.as_slice() == "(log (0 0 1))\n".as_bytes()
}
