// The circuit clauses of queries over bit vectors.
ghost use Rattle.std.specs.Prelude.{◌↔◌, IfOk, IsTrue};
ghost use Rattle.sy_clauses.specs.Clauses.{Refutes};
ghost use Rattle.sy_clauses.specs.declared.Cnf.{Cnf};
ghost use Rattle.sy_meaning_words.specs.Vectors.{is_bits, owned, vector};
ghost use Rattle.sy_query_base.specs.Asked.{query_of, QueryFits};
ghost use Rattle.sy_bits_circuit.specs.Clauses.{HasCircuitClauses};

use std::alloc::Global;
use sy_bits_circuit::{Circuit, query_circuit};
use sy_clauses::{Log, check};
use sy_meaning_words::BvTheory;
use sy_query_base::Query;
use sy_terms::Want;

/// The circuit of the query, or of one that the same values satisfy.
pub(crate) fn circuit_for(alloc: Global, query: &Query<BvTheory>) -> Result<Circuit, Want>
    requires { QueryFits owned is_bits (query_of vector query.now) }
    ensures { IfOk result (λ circuit. HasCircuitClauses (query_of vector query.now) circuit.clauses) }
{
    let Some(circuit) = query_circuit(alloc, query)? else {
        return Err(Want {});
    };
    Ok(circuit)
}

/// Whether the log refutes clauses that say what the query says.
pub(crate) fn is_refuted(alloc: Global, query: &Query<BvTheory>, log: &Log) -> Result<bool, Want>
    requires { QueryFits owned is_bits (query_of vector query.now) }
    ensures { IfOk result (λ yes. (cnf : Cnf) × HasCircuitClauses (query_of vector query.now) cnf
        × (IsTrue yes ↔ Refutes cnf log.now)) }
{
    let circuit = circuit_for(alloc, query)?;
    let refuted = check(alloc, circuit.cnf(), log);
    drop(circuit);
    refuted
}
