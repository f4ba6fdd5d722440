// The circuit of a query.
ghost use Rattle.std.specs.Prelude.{◌≡◌, ◌<◌, ◌*◌, ◌^◌, length, IfOk};
ghost use Rattle.sy_terms.specs.Denoted.{vals_of};
ghost use Rattle.sy_clauses.specs.Clauses.{IsModel, VarsFit};
ghost use Rattle.sy_gates.specs.Models.{values_of};
ghost use Rattle.sy_meaning_words.specs.Vectors.{vector, owned, is_bits};
ghost use Rattle.sy_query_base.specs.Asked as asked;
ghost use Rattle.sy_query_base.specs.Asked.{query_of, QueryFits, Satisfies};
ghost use Rattle.sy_bits_circuit.specs.Assignments.{assignment};
ghost use Rattle.sy_bits_circuit.specs.Clauses.{HasCircuitClauses, query_size};
ghost use Rattle.sy_bits_circuit.specs.Bodies.{IsBodyOf};

use crate::inputs::{Inputs, input_signals};
use crate::terms::signal_of;
use crate::values::read_values;
use std::alloc::Global;
use std::marker::Model;
use sy_bits_operators::Signal;
use sy_bits_words::Words;
use sy_clauses::Cnf;
use sy_meaning_words::BvTheory;
use sy_query_base::Query;
use sy_seq::{Seq, Want};
use sy_terms::{Sort, Values};

/// The clauses of a query's circuit. The bits of the query's variables come first among the variables of the clauses:
/// one variable of the query after the other, each from its least bit on; a truth value is one bit.
#[derive(Drop)]
pub struct Circuit {
    variables: Seq<Sort>,
    clauses: Cnf,
}

impl Model for Circuit {
    ghost use Rattle.std.specs.Prelude.{◌≤◌};
    ghost use Rattle.sy_bits_operators.specs.Signals.{AllHaveSignals, total_width};
    ghost use Rattle.sy_bits_circuit.specs.Clauses.{Blasted};

    ghost Value = { Blasted };

    ghost view = { λ c. record { variables = c.variables; clauses = c.clauses } };

    ghost invariant = { λ c. AllHaveSignals c.variables × (total_width c.variables ≤ c.clauses.vars) };
}

/// The circuit of a query's body, and its signal there.
#[derive(Drop)]
struct Body {
    circuit: sy_gates::Circuit,
    signal: Signal,
}

/// The circuit of the body of a query.
fn body_circuit(alloc: Global, query: &Query<BvTheory>) -> Result<Body, Want>
    requires fits { QueryFits owned is_bits (query_of vector query.now) }
    requires room { 1000 * query_size (query_of vector query.now) < 2 ^ 31 }
    ensures { IfOk result (λ r. IsBodyOf (query_of vector query.now) r.circuit r.signal) }
{
    let Inputs { mut signals, count } = input_signals(alloc, query.vars.as_slice())?;
    let mut circuit = sy_gates::Circuit::new(alloc, count);
    let mut words = Words::new(alloc);
    let signal = signal_of(&mut words, &mut circuit, alloc, &mut signals, &query.body)?;
    Ok(Body { circuit, signal })
}

/// The circuit of a query that fits and isn't too heavy. Its clauses say what the query says, each variable in them is
/// below their `vars`, and there are fewer than 2 to the power of 31 of both. `Want` exactly where memory is refused.
pub fn blast(alloc: Global, query: &Query<BvTheory>) -> Result<Circuit, Want>
    requires fits { QueryFits owned is_bits (query_of vector query.now) }
    requires room { 1000 * query_size (query_of vector query.now) < 2 ^ 31 }
    ensures variables { IfOk result (λ r. r.variables ≡ query.now.vars) }
    ensures clauses { IfOk result (λ r. HasCircuitClauses (query_of vector query.now) r.clauses) }
    ensures vars { IfOk result (λ r. VarsFit r.clauses) }
{
    let Body {
        mut circuit,
        signal,
    } = body_circuit(alloc, query)?;
    let output = circuit.literal(signal.bit())?;
    let clauses = circuit.cnf(alloc, output)?;
    let variables = Seq::from(Vec::from_slice(alloc, query.vars.as_slice())?);
    Ok(Circuit { variables, clauses })
}

impl Circuit {
    /// The clauses.
    pub fn cnf(&self) -> &Cnf
        ensures { result.now ≡ self.now.clauses }
    {
        &self.clauses
    }

    /// The clauses alone.
    pub fn into_cnf(self) -> Cnf
        ensures { result ≡ self.clauses }
    {
        self.clauses
    }

    /// The assignment that truth values of all variables stand for: a value of each variable of the query, in order.
    /// Where they make every clause true, it satisfies the query.
    pub fn read(&self, alloc: Global, bits: &Seq<bool>) -> Result<Values<BvTheory>, Want>
        requires { length bits.now ≡ self.now.clauses.vars }
        ensures values { IfOk result (λ r. vals_of vector r ≡ assignment self.now.variables bits.now) }
        ensures satisfies { IfOk result (λ r. (query : asked.Query) →
            query.variables ≡ self.now.variables → HasCircuitClauses query self.now.clauses →
            IsModel (values_of bits.now) self.now.clauses.clauses → Satisfies query (vals_of vector r)) }
    {
        let values = read_values(alloc, self.variables.as_slice(), bits.as_slice())?;
        Ok(values)
    }
}
