// Circuits of queries without variables, which are true or false once and for all.
ghost use Rattle.std.specs.Prelude.{◌≡◌, ◌≤◌, ◌<◌, ◌^◌, ◌↔◌, [], length, IfOk, IfSome, IsTrue};
ghost use Rattle.sy_query_base.specs.Asked.{query_of, QueryFits, Satisfies};
ghost use Rattle.sy_meaning_words.specs.Vectors.{vector, owned, is_bits};
ghost use Rattle.sy_clauses.specs.Clauses.{VarsFit};
ghost use Rattle.sy_bits_circuit.specs.Clauses.{HasCircuitClauses, query_size};

use crate::circuit::{Circuit, blast};
use std::alloc::Global;
use sy_meaning::{Eval, evaluate};
use sy_meaning_words::BvTheory;
use sy_query_base::Query;
use sy_terms::{Defs, Seq, Term, Value, Want};

/// The circuit of the truth of a query without variables, of at least this size: however large the query is, that says
/// what the query says. `None` where it has variables.
pub(crate) fn closed_circuit(
    alloc: Global,
    query: &Query<BvTheory>,
    size: u32,
) -> Result<Option<Circuit>, Want>
    requires fits { QueryFits owned is_bits (query_of vector query.now) }
    requires size { size ≤ query_size (query_of vector query.now) }
    ensures variables { IfOk result (λ found. IfSome found (λ circuit. circuit.variables ≡ query.now.vars)) }
    ensures clauses { IfOk result (λ found.
        IfSome found (λ circuit. HasCircuitClauses (query_of vector query.now) circuit.clauses)) }
    ensures vars { IfOk result (λ found. IfSome found (λ circuit. VarsFit circuit.clauses)) }
    ensures count { IfOk result (λ found. IfSome found (λ circuit. length circuit.clauses.clauses < 2 ^ 31)) }
{
    if query.vars.len() > 0 || size == 0 {
        return Ok(None);
    }
    let Some(truth) = truth_of(alloc, query)? else {
        return Ok(None);
    };
    let known = Query {
        vars: Seq::new(alloc),
        body: Term::Const(Value::Truth(truth)),
    };
    let circuit = blast(alloc, &known);
    drop(known);
    Ok(Some(circuit?))
}

/// Whether the query without variables is true.
fn truth_of(alloc: Global, query: &Query<BvTheory>) -> Result<Option<bool>, Want>
    requires fits { QueryFits owned is_bits (query_of vector query.now) }
    requires closed { length query.now.vars ≡ 0 }
    ensures { IfOk result (λ found. IfSome found (λ truth. IsTrue truth ↔ Satisfies (query_of vector query.now) [])) }
{
    let defs: Defs<BvTheory> = Seq::new(alloc);
    let nothing = Vec::new(alloc);
    match evaluate(alloc, &defs, nothing.as_slice(), &query.body) {
        Ok(Value::Truth(truth)) => Ok(Some(truth)),
        Ok(Value::Num(_)) => Ok(None),
        Err(Eval::Range) => Ok(None),
        Err(Eval::Want) => Err(Want {}),
    }
}
