// Judging definitions by the proofs that stand beside them.
ghost use Rattle.sygus_verdicts.specs.Proofs.{IsRecheckedWith, verdict_rechecked};

use crate::judge::Judge;
use crate::text::{put_accepted, put_budget, put_not_member, put_rejected};
use std::alloc::Global;
use sy_grammar_base::Problem;
use sy_io::Bytes;
use sy_query_limits::{FailName, Limits};
use sy_scope_causes::Titles;
use sy_terms::{Bodies, Theory, Want};
use sy_text_items::Sexp;
use sy_verify::{ProofChecker, Rechecked, recheck};

/// The judge that asks a checker whether the proof beside definitions shows that they solve their problem. Definitions
/// without a proof are rejected.
#[derive(Drop)]
pub struct Rechecking<C> {
    pub checker: C,
}

impl<T: Theory, C: ProofChecker<T> + Drop> Judge<T> for Rechecking<C> {
    type Found = Rechecked;

    ghost right = { λ question limits bodies proof found.
        IsRecheckedWith T.owned C.proves C.fails C.overflows question limits.weight bodies proof found };

    ghost verdict = { verdict_rechecked };

    fn judge(
        &mut self,
        alloc: Global,
        problem: &Problem<T>,
        bodies: &Bodies<T>,
        limits: &Limits,
        proof: Option<&Sexp>,
    ) -> Result<Rechecked, Want> {
        let Some(proof) = proof else {
            return Ok(Rechecked::Rejected);
        };
        let found = recheck::<T, C>(alloc, problem, bodies, limits.weight, proof)?;
        Ok(found)
    }

    fn put_verdict(out: &mut Bytes, titles: &Titles, found: &Rechecked) -> Result<(), Want> {
        match found {
            Rechecked::Accepted => put_accepted(out, titles),
            Rechecked::NotMember(function) => put_not_member(out, titles, *function),
            Rechecked::Heavy => put_budget(out, titles, FailName::Weight),
            Rechecked::Rejected => put_rejected(out, titles),
            Rechecked::Range(_) => put_budget(out, titles, FailName::Range),
        }
    }

    fn is_good(found: &Rechecked) -> bool {
        match found {
            Rechecked::Accepted => true,
            Rechecked::NotMember(_) => false,
            Rechecked::Heavy => false,
            Rechecked::Rejected => false,
            Rechecked::Range(_) => false,
        }
    }
}
