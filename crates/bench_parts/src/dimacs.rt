// Formulas in the DIMACS form: lines of comments begin with `c`, one line `p cnf` has the number of variables, and each
// clause is its literals as numbers other than 0, a negative one for a negated variable, and then 0.
ghost use Rattle.std.specs.Prelude.{◌≡◌, ◌<◌, ◌^◌, IsTrue, IfOk, IfSome, length, slice_get, Some, ℕ};
ghost use Rattle.sy_clauses.specs.declared.Lit.{Lit};
ghost use Rattle.sy_clauses.specs.Clauses.{VarsFit};

use std::alloc::Global;
use std::mem;
use sy_clauses::{Cnf, Lit};
use sy_seq::{Seq, Want};

/// The literal of a number, or `None` of 0. Variables are numbered from 1 in the file, and from 0 here.
fn literal_of(number: i32) -> Option<Lit> {
    let var = number.unsigned_abs().checked_sub(1)?;
    Some(Lit {
        var,
        positive: number > 0,
    })
}

/// Reads a line of clauses, the first of which has begun; whether all its words are numbers.
fn add_numbers(
    alloc: Global,
    line: &str,
    cnf: &mut Cnf,
    clause: &mut Seq<Lit>,
) -> Result<bool, Want> {
    for word in line.split_whitespace() {
        let Ok(number) = word.parse::<i32>() else {
            return Ok(false);
        };
        match literal_of(number) {
            Some(literal) => clause.push(literal)?,
            None => cnf.clauses.push(mem::replace(clause, Seq::new(alloc)))?,
        }
    }
    Ok(true)
}

/// Reads a line, where a clause has begun; whether it is of the form.
fn add_line(alloc: Global, line: &str, cnf: &mut Cnf, clause: &mut Seq<Lit>) -> Result<bool, Want> {
    if line.starts_with('c') {
        return Ok(true);
    }
    let Some(sizes) = line.strip_prefix("p cnf ") else {
        return add_numbers(alloc, line, cnf, clause);
    };
    let word = sizes.split_whitespace().next().unwrap_or("");
    match word.parse::<u32>() {
        Ok(vars) => {
            cnf.vars = vars;
            Ok(true)
        }
        Err(_) => Ok(false),
    }
}

/// Reads all lines; whether they are of the form and the last clause ends.
fn add_lines(
    alloc: Global,
    text: &str,
    cnf: &mut Cnf,
    clause: &mut Seq<Lit>,
) -> Result<bool, Want> {
    for line in text.lines() {
        if !add_line(alloc, line, cnf, clause)? {
            return Ok(false);
        }
    }
    Ok(clause.len() == 0)
}

/// Reads the text; whether it is of the form.
fn add_text(alloc: Global, text: &str, cnf: &mut Cnf) -> Result<bool, Want> {
    let mut clause = Seq::new(alloc);
    add_lines(alloc, text, cnf, &mut clause)
}

/// Whether each literal's variable is below `vars`.
fn clause_fits(literals: &[Lit], vars: u32) -> bool
    ensures { IsTrue result → (k : ℕ) (l : Lit) → slice_get literals.now k ≡ Some l → l.var < vars }
{
    for literal in literals {
        if literal.var >= vars {
            return false;
        }
    }
    true
}

/// Whether the formula is one that the solver takes.
fn fits(cnf: &Cnf) -> bool
    ensures vars { IsTrue result → VarsFit cnf.now }
    ensures clauses_fit { IsTrue result → length cnf.now.clauses < 2 ^ 31 }
{
    for clause in cnf.clauses.as_slice() {
        if !clause_fits(clause.as_slice(), cnf.vars) {
            return false;
        }
    }
    cnf.clauses.len() < 2_147_483_648
}

/// The formula that the text is, or `None` where it isn't of the form, its last clause doesn't end, a variable is past
/// their number, or there are 2^31 clauses or more.
pub(crate) fn read_formula(alloc: Global, text: &str) -> Result<Option<Cnf>, Want>
    ensures vars { IfOk result (λ read. IfSome read VarsFit) }
    ensures clauses_fit { IfOk result (λ read. IfSome read (λ cnf. length cnf.clauses < 2 ^ 31)) }
{
    let mut cnf = Cnf {
        vars: 0,
        clauses: Seq::new(alloc),
    };
    if add_text(alloc, text, &mut cnf)? && fits(&cnf) {
        Ok(Some(cnf))
    } else {
        Ok(None)
    }
}
