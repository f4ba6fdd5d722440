// Clauses in the format of DIMACS.
ghost use Rattle.std.specs.Prelude.{◌≡◌, ◌++◌, map, OnOk, IfOk};
ghost use Rattle.std.specs.List.{concat};
ghost use Rattle.sy_proof.specs.Clauses as spec;

use std::alloc::Global;
use sy_clauses::{Cnf, Lit};
use sy_io::Bytes;
use sy_seq::{Seq, Want};
use sy_text::write_numeral;

/// The clauses in the format of DIMACS: a line `p cnf V N` with the numbers of variables and clauses, then a line for
/// each clause, as `1 -2 0`, where the variable of number 0 is 1. The last line doesn't end with byte 10.
pub fn write_clauses(alloc: Global, cnf: &Cnf) -> Result<Bytes, Want>
    ensures { IfOk result (λ text. text ≡ spec.clauses_text cnf.now) }
{
    let mut out = Bytes::new(alloc);
    out.append(b"p cnf ")?;
    write_numeral(&mut out, u128::from(cnf.vars))?;
    out.push(b' ')?;
    write_numeral(&mut out, cnf.clauses.len() as u128)?;
    put_clauses(&mut out, cnf.clauses.as_slice())?;
    Ok(out)
}

/// Appends each clause.
fn put_clauses(out: &mut Bytes, clauses: &[Seq<Lit>]) -> Result<(), Want>
    ensures { OnOk result (out.new ≡ out.old ++ concat (map spec.clause_text clauses.now)) }
{
    for clause in clauses {
        put_clause(out, clause.as_slice())?;
    }
    Ok(())
}

/// Appends byte 10, each literal of the clause, and 0.
fn put_clause(out: &mut Bytes, clause: &[Lit]) -> Result<(), Want>
    ensures { OnOk result (out.new ≡ out.old ++ spec.clause_text clause.now) }
{
    out.push(b'\n')?;
    put_literals(out, clause)?;
    out.push(b'0')?;
    Ok(())
}

/// Appends each literal.
fn put_literals(out: &mut Bytes, literals: &[Lit]) -> Result<(), Want>
    ensures { OnOk result (out.new ≡ out.old ++ concat (map spec.literal_text literals.now)) }
{
    for literal in literals {
        put_literal(out, *literal)?;
    }
    Ok(())
}

/// Appends the number of the literal's variable, from 1 on, behind a minus where it is negated, and a space.
fn put_literal(out: &mut Bytes, literal: Lit) -> Result<(), Want>
    ensures { OnOk result (out.new ≡ out.old ++ spec.literal_text literal) }
{
    if !literal.positive {
        out.push(b'-')?;
    }
    write_numeral(out, u128::from(literal.var) + 1)?;
    out.push(b' ')?;
    Ok(())
}
