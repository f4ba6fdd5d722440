// The circuit clauses of queries as text.
ghost use Rattle.std.specs.Prelude.{◌≡◌, IfOk};
ghost use Rattle.sy_proof.specs.Clauses.{clauses_text};
ghost use Rattle.sy_verify_proofs.specs.Logs as logs;

use crate::circuits::circuit_for;
use std::alloc::Global;
use sy_bits_circuit::Circuit;
use sy_io::Bytes;
use sy_meaning_words::BvTheory;
use sy_proof::write_clauses;
use sy_query_base::Query;
use sy_terms::Want;
use sy_verify::ClauseWriter;

/// Writes the clauses that logs of queries over bit vectors refute, in the format of DIMACS. A query whose variables
/// and clauses may be 2^31 or more is answered as want of memory.
#[derive(Clone, Copy, Debug, PartialEq, Eq)]
pub struct LogClauses;

impl ClauseWriter<BvTheory> for LogClauses {
    ghost spells = { logs.SpellsClauses };

    ghost lacks = { logs.LacksClauses };

    fn clauses(alloc: Global, query: &Query<BvTheory>) -> Result<Option<Bytes>, Want> {
        let circuit = circuit_for(alloc, query)?;
        let text = text_of(alloc, circuit)?;
        Ok(Some(text))
    }
}

/// The text of the circuit's clauses.
fn text_of(alloc: Global, circuit: Circuit) -> Result<Bytes, Want>
    ensures { IfOk result (λ text. text ≡ clauses_text circuit.clauses) }
{
    let text = write_clauses(alloc, circuit.cnf());
    drop(circuit);
    text
}
