// Judging definitions by the clauses of their query.
ghost use Rattle.sy_verify.specs.Spelling.{IsSpelled};
ghost use Rattle.sygus_verdicts.specs.Proofs.{verdict_spelled};

use crate::judge::Judge;
use crate::text::{put_budget, put_clauses, put_no_clauses, put_not_member};
use std::alloc::Global;
use sy_grammar_base::Problem;
use sy_io::Bytes;
use sy_query_limits::{FailName, Limits};
use sy_scope_causes::Titles;
use sy_terms::{Bodies, Theory, Want};
use sy_text_items::Sexp;
use sy_verify::{ClauseWriter, Spelled, spell};

/// The judge that gives the clauses of the query of definitions.
#[derive(Drop)]
pub struct Spelling<W> {
    pub writer: W,
}

impl<T: Theory, W: ClauseWriter<T> + Drop> Judge<T> for Spelling<W> {
    type Found = Spelled;

    ghost right = { λ question limits bodies proof found.
        IsSpelled T.owned W.spells W.lacks question limits.weight bodies found };

    ghost verdict = { verdict_spelled };

    fn judge(
        &mut self,
        alloc: Global,
        problem: &Problem<T>,
        bodies: &Bodies<T>,
        limits: &Limits,
        _proof: Option<&Sexp>,
    ) -> Result<Spelled, Want> {
        let found = spell::<T, W>(alloc, problem, bodies, limits.weight)?;
        Ok(found)
    }

    fn put_verdict(out: &mut Bytes, titles: &Titles, found: &Spelled) -> Result<(), Want> {
        match found {
            Spelled::NotMember(function) => put_not_member(out, titles, *function),
            Spelled::Heavy => put_budget(out, titles, FailName::Weight),
            Spelled::Clauses(text) => put_clauses(out, titles, text.as_slice()),
            Spelled::NoClauses => put_no_clauses(out, titles),
        }
    }

    fn is_good(found: &Spelled) -> bool {
        match found {
            Spelled::NotMember(_) => false,
            Spelled::Heavy => false,
            Spelled::Clauses(_) => true,
            Spelled::NoClauses => false,
        }
    }
}
