// The solver.
ghost use Rattle.std.specs.Prelude.{◌≡◌, min, IfOk};
ghost use Rattle.sy_query_base.specs.Answers.{Answers};
ghost use Rattle.sy_query_base.specs.Asked.{query_of};
ghost use Rattle.sy_meaning_words.specs.Vectors.{vector};
ghost use Rattle.sy_bits_circuit.specs.Clauses.{HasCircuitClauses};
ghost use Rattle.sy_clauses.specs.Clauses.{Refutes};
ghost use Rattle.sy_cdcl.specs.Answer.{AnswersFormula};
ghost use Rattle.sy_bits.specs.Proofs as proofs;
ghost use Rattle.sy_bits.specs.Soundness.{sound};

use crate::answers::{BvProof, BvSpent};
use crate::turns::solve_in_turns;
use std::alloc::{AllocError, Global};
use sy_bits_circuit::{Circuit, query_circuit};
use sy_cdcl::Solved;
use sy_clauses::{Log, trimmed};
use sy_meaning_words::BvTheory;
use sy_query::corner_model;
use sy_query_base::{Decide, Query, Verdict};
use sy_query_limits::{FailName, Limits};
use sy_terms::Want;

/// The most clauses that a log can have learned.
const MOST_LEARNED: u32 = 2_147_483_647;

/// A solver of queries over bit vectors. It tries up to 128 assignments at which queries are often true; then it makes
/// the circuit clauses of the query, or of one that the same values satisfy and that is easier to search, and searches
/// a model or a refutation of them that learns at most as many clauses as the limit `clauses`.
///
/// A query with variables, of which and of whose clauses there may be 2^31 or more, is answered as want of memory where
/// none of these assignments satisfies it, and so is a search that learns 2^31 - 1 clauses below its limit. What has no
/// variables is evaluated, however large it is.
#[derive(Clone, Copy, Debug, PartialEq, Eq)]
pub struct BvDecide;

impl BvDecide {
    /// The solver. It keeps nothing from one query to the next.
    pub fn new() -> BvDecide {
        BvDecide
    }
}

impl Decide<BvTheory> for BvDecide {
    type Proof = BvProof;

    type Spent = BvSpent;

    ghost accepted = { proofs.Accepted };

    ghost budget = { proofs.budget };

    ghost shows = { proofs.Shows };

    fn decide(
        &mut self,
        alloc: Global,
        query: &Query<BvTheory>,
        limits: &Limits,
    ) -> Result<Verdict<BvTheory, BvProof, BvSpent>, Want> {
        if query.vars.len() > 0 {
            if let Some(values) = corner_model(alloc, query)? {
                return Ok(Verdict::Model(values));
            }
        }
        let Some(circuit) = query_circuit(alloc, query)? else {
            return Err(AllocError);
        };
        let fuel = limits.clauses.min(MOST_LEARNED);
        match solve_in_turns(alloc, circuit.cnf(), fuel) {
            Ok(solved) => answer(alloc, query, limits, circuit, solved),
            Err(end) => {
                drop(circuit);
                Err(end)
            }
        }
    }

    fn name_of(spent: &BvSpent) -> FailName {
        match spent {
            BvSpent::Clauses(_, _) => FailName::Clauses,
        }
    }

    ghost sound = { sound };
}

/// What the end of a search on the query's circuit clauses says of the query.
fn answer(
    alloc: Global,
    query: &Query<BvTheory>,
    limits: &Limits,
    circuit: Circuit,
    solved: Solved,
) -> Result<Verdict<BvTheory, BvProof, BvSpent>, Want>
    requires variables { circuit.variables ≡ query.now.vars }
    requires clauses { HasCircuitClauses (query_of vector query.now) circuit.clauses }
    requires solved { AnswersFormula circuit.clauses (min limits.now.clauses 2147483647) solved }
    ensures { IfOk result
        (Answers vector proofs.Accepted proofs.budget proofs.Shows (query_of vector query.now) limits.now) }
{
    match solved {
        Solved::Refuted(log) => {
            let proof = proof_by(alloc, circuit, log)?;
            Ok(Verdict::Never(proof))
        }
        Solved::Model(bits) => {
            let values = circuit.read(alloc, &bits);
            drop(bits);
            drop(circuit);
            Ok(Verdict::Model(values?))
        }
        Solved::Fuel(log) => {
            if limits.clauses > MOST_LEARNED {
                drop(log);
                drop(circuit);
                return Err(AllocError);
            }
            Ok(Verdict::Spent(BvSpent::Clauses(circuit.into_cnf(), log)))
        }
    }
}

/// The circuit's clauses, and of a log that refutes them the lines that its last one needs.
fn proof_by(alloc: Global, circuit: Circuit, log: Log) -> Result<BvProof, Want>
    requires { Refutes circuit.clauses log }
    ensures cnf { IfOk result (λ proof. proof.cnf ≡ circuit.clauses) }
    ensures refuted { IfOk result (λ proof. Refutes proof.cnf proof.log) }
{
    let shorter = trimmed(alloc, circuit.cnf(), &log);
    drop(log);
    match shorter {
        Ok(log) => Ok(BvProof {
            cnf: circuit.into_cnf(),
            log,
        }),
        Err(end) => {
            drop(circuit);
            Err(end)
        }
    }
}
