// The texts of replies.
ghost use Rattle.std.specs.Prelude.{◌≡◌, IfOk};
ghost use Rattle.sy_grammar_base.specs.Questions.{question_of};
ghost use Rattle.sygus_replies.specs.Answerable.{HasMembers, IsAnswerableFor};
ghost use Rattle.sygus_replies.specs.Replies.{reply_for, shown_for};
ghost use Rattle.sygus_replies.specs.Texts as texts;

use crate::prints::Prints;
use std::alloc::Global;
use sy_grammar_base::Problem;
use sy_io::Bytes;
use sy_loop_spec::{Outcome, fail_name};
use sy_query_base::Decide;
use sy_reply::{fail_line, reply_text};
use sy_scope_causes::Titles;
use sy_terms::{Theory, Want};

/// The text of the reply to a `check-synth`: definitions, and the line of their proof where proofs are asked for; or
/// the line `infeasible` or `fail`.
#[tactic(auto, unfolding(crate::specs::Texts::plain_text))]
pub fn answer_text<T: Theory, D: Decide<T>, S: Prints<D::Proof>>(
    alloc: Global,
    titles: &Titles,
    problem: &Problem<T>,
    answer: &Outcome<T, D::Proof, D::Spent>,
    proofs: bool,
) -> Result<Bytes, Want>
    requires answerable { IsAnswerableFor T.Theory titles.now problem.now }
    requires members { HasMembers (question_of T.denotes problem.now) (reply_for T.Theory D.Decide answer.now) }
    ensures { IfOk result (λ text. text ≡ texts.answer_text titles.now (question_of T.denotes problem.now)
        (shown_for T.Theory D.Decide S.Prints proofs answer.now)) }
{
    match answer {
        Outcome::Found(bodies, proof) => {
            let mut text = reply_text(alloc, titles, problem, bodies)?;
            if proofs {
                let line = S::print(alloc, proof)?;
                text.append(line.as_slice())?;
            }
            Ok(text)
        }
        Outcome::Infeasible => {
            let mut text = Bytes::new(alloc);
            text.append(b"infeasible\n")?;
            Ok(text)
        }
        Outcome::Fail(_) => {
            let mut text = Bytes::new(alloc);
            text.append(b"fail\n")?;
            Ok(text)
        }
    }
}

/// The line of the reply to a `check-synth`, empty where it is no fail.
#[tactic(auto, unfolding(crate::specs::Texts::answer_line))]
pub fn answer_line<T: Theory, D: Decide<T>>(
    alloc: Global,
    check: u32,
    answer: &Outcome<T, D::Proof, D::Spent>,
) -> Result<Bytes, Want>
    ensures { IfOk result (λ text. text ≡ texts.answer_line check (reply_for T.Theory D.Decide answer.now)) }
{
    match answer {
        Outcome::Found(_, _) | Outcome::Infeasible => Ok(Bytes::new(alloc)),
        Outcome::Fail(cause) => {
            let name = fail_name::<T, D>(cause);
            let line = fail_line(alloc, check, name)?;
            Ok(line)
        }
    }
}
