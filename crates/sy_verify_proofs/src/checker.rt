// The checker of resolution logs in text.
ghost use Rattle.sy_verify_proofs.specs.Logs as logs;
ghost use Rattle.sy_verify_proofs.specs.Soundness.{sound};

use crate::circuits::is_refuted;
use std::alloc::Global;
use sy_meaning_words::BvTheory;
use sy_proof::read_log;
use sy_query_base::Query;
use sy_terms::Want;
use sy_text_items::Sexp;
use sy_verify::{Checking, ProofChecker};

/// The checker of resolution logs, for queries over bit vectors. An item proves a query where it spells a log that
/// refutes clauses which say what the query says; the clauses are made anew. A query whose variables and clauses may be
/// 2^31 or more is answered as want of memory.
#[derive(Clone, Copy, Debug, PartialEq, Eq)]
pub struct LogChecker;

impl ProofChecker<BvTheory> for LogChecker {
    ghost proves = { logs.LogProves };

    ghost fails = { logs.LogFails };

    ghost overflows = { logs.LogOverflows };

    fn check(alloc: Global, query: &Query<BvTheory>, proof: &Sexp) -> Result<Checking, Want> {
        let Some(log) = read_log(alloc, proof)? else {
            return Ok(Checking::Fails);
        };
        let refuted = is_refuted(alloc, query, &log)?;
        if refuted {
            Ok(Checking::Proves)
        } else {
            Ok(Checking::Fails)
        }
    }

    ghost sound = { sound };
}
