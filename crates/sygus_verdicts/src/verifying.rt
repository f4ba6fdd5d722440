// Judging definitions by a solver.
ghost use Rattle.sy_verify.specs.Checking.{IsChecked};
ghost use Rattle.sygus_verdicts.specs.Found.{verdict_found};

use crate::judge::Judge;
use crate::text::{put_budget, put_holds, put_not_member, put_refuted};
use std::alloc::Global;
use sy_grammar_base::Problem;
use sy_io::Bytes;
use sy_query_base::Decide;
use sy_query_limits::{FailName, Limits};
use sy_scope_causes::Titles;
use sy_terms::{Bodies, Theory, Want};
use sy_text_items::Sexp;
use sy_verify::{Checked, verify};

/// The judge that asks a solver whether definitions solve their problem.
#[derive(Drop)]
pub struct Verifying<D> {
    pub decide: D,
}

impl<T: Theory, D: Decide<T> + Drop> Judge<T> for Verifying<D> {
    type Found = Checked<T, D::Proof, D::Spent>;

    ghost right = { λ question limits bodies proof found.
        IsChecked T.owned T.denotes D.accepted D.budget D.shows question limits bodies found };

    ghost verdict = { verdict_found T.denotes D.budget };

    fn judge(
        &mut self,
        alloc: Global,
        problem: &Problem<T>,
        bodies: &Bodies<T>,
        limits: &Limits,
        _proof: Option<&Sexp>,
    ) -> Result<Checked<T, D::Proof, D::Spent>, Want> {
        let found = verify(alloc, problem, bodies, limits, &mut self.decide)?;
        Ok(found)
    }

    fn put_verdict(
        out: &mut Bytes,
        titles: &Titles,
        found: &Checked<T, D::Proof, D::Spent>,
    ) -> Result<(), Want> {
        match found {
            Checked::Holds(_) => put_holds(out, titles),
            Checked::NotMember(function) => put_not_member(out, titles, *function),
            Checked::Heavy => put_budget(out, titles, FailName::Weight),
            Checked::Refuted(values) => put_refuted::<T>(out, titles, values.as_slice()),
            Checked::Spent(spent) => put_budget(out, titles, D::name_of(spent)),
        }
    }

    fn is_good(found: &Checked<T, D::Proof, D::Spent>) -> bool {
        match found {
            Checked::Holds(_) => true,
            Checked::NotMember(_) => false,
            Checked::Heavy => false,
            Checked::Refuted(_) => false,
            Checked::Spent(_) => false,
        }
    }
}
