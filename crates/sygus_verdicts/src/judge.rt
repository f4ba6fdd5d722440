// Judges of definitions.
use std::alloc::Global;
use sy_grammar_base::Problem;
use sy_io::Bytes;
use sy_query_limits::Limits;
use sy_scope_causes::Titles;
use sy_terms::{Bodies, Theory, Want};
use sy_text_items::Sexp;

/// A judge of the definitions that replies give to problems of a theory. What it finds has a verdict.
pub trait Judge<T: Theory> {
    /// What is found of definitions.
    type Found: Drop;

    ghost use Rattle.std.specs.Prelude.{◌≡◌, ◌++◌, List, Option, map, IfOk, OnOk};
    ghost use Rattle.std.specs.Option.{option_map};
    ghost use Rattle.sy_text_items.specs.Items.{Item};
    ghost use Rattle.sy_text_items.specs.Views.{item_of};
    ghost use Rattle.sy_terms.specs.Denoted.{expr_of};
    ghost use Rattle.sy_terms.specs.Expr.{Expr};
    ghost use Rattle.sy_terms_operators.specs.Evaluation.{BodiesFit};
    ghost use Rattle.sy_grammar_base.specs.Fits.{QuestionFits};
    ghost use Rattle.sy_grammar_base.specs.Questions.{Question, question_of, signatures};
    ghost use Rattle.sy_query_limits.specs.declared.Limits.{Limits};
    ghost use Rattle.sygus_verdicts.specs.Verdicts as spec;
    ghost use Rattle.sygus_verdicts.specs.Lines.{verdict_text};

    /// What is found within these limits is right for the question, the bodies and the item of a proof.
    ghost right: { Question → Limits → List Expr → Option Item → Self.Found → Type 0 };

    /// The verdict on what is found.
    ghost verdict: { Self.Found → spec.Verdict };

    /// What is found of the bodies, one for each function to be found, and of the item of a proof, if one was given.
    fn judge(
        &mut self,
        alloc: Global,
        problem: &Problem<T>,
        bodies: &Bodies<T>,
        limits: &Limits,
        proof: Option<&Sexp>,
    ) -> Result<Self::Found, Want>
        requires problem { QuestionFits T.owned T.numeric (question_of T.denotes problem.now) }
        requires bodies { BodiesFit T.owned T.denotes problem.now.defs bodies.now (signatures problem.now) }
        ensures right { IfOk result (right (question_of T.denotes problem.now) limits.now
            (map (expr_of T.denotes) bodies.now) (option_map (λ s. item_of s.now) proof.entry)) }
        ensures printable { IfOk result (λ found. spec.IsPrintable (verdict found)) };

    /// Appends the verdict.
    fn put_verdict(out: &mut Bytes, titles: &Titles, found: &Self::Found) -> Result<(), Want>
        requires { spec.IsPrintable (verdict found.now) }
        ensures { OnOk result (out.new ≡ out.old ++ verdict_text titles.now (verdict found.now)) };

    /// Whether the verdict is good: the definitions solve the problem, a proof shows it, or clauses are given.
    fn is_good(found: &Self::Found) -> bool
        ensures { result ≡ spec.is_good (verdict found.now) };
}
