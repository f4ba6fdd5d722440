// The search of each mode, and the status of its outcomes.
ghost use Rattle.std.specs.Prelude.{◌≡◌, ◌≤◌, IfOk, All, Any};
ghost use Rattle.sy_grammar_base.specs.Fits.{ProblemFits};
ghost use Rattle.sy_grammar_base.specs.Questions.{question_of};
ghost use Rattle.sygus_replies.specs.Replies.{IsSettled, IsFail, replies_for};
ghost use Rattle.sygus_answers.specs.RightAnswers.{RightOutcomeFor};

use std::alloc::Global;
use sy_grammar_base::Problem;
use sy_loop::synthesise_least;
use sy_loop_spec::Outcome;
use sy_loop_stages::synthesise_beyond;
use sy_query_base::Decide;
use sy_query_limits::Limits;
use sy_terms::{Seq, Theory, Want};
use sygus_words::{Mode, tries_trees};

/// How the problems were answered: the status of the program, and the outcomes of the first problems, in order.
#[derive(Drop)]
pub struct Solved<T: Theory, P: Drop, S: Drop> {
    pub status: u8,
    pub answers: Seq<Outcome<T, P, S>>,
}

/// 1 where some answer is a fail, else 0.
pub fn status_of<T: Theory, D: Decide<T>>(answers: &[Outcome<T, D::Proof, D::Spent>]) -> u8
    ensures bound { result ≤ 1 }
    ensures all_settled { result ≡ 0 → All IsSettled (replies_for T.Theory D.Decide answers.now) }
    ensures some_fail { result ≡ 1 → Any IsFail (replies_for T.Theory D.Decide answers.now) }
{
    for answer in answers {
        match answer {
            Outcome::Found(_, _) => {}
            Outcome::Infeasible => {}
            Outcome::Fail(_) => return 1,
        }
    }
    0
}

/// What the search of this mode answers to the problem.
pub fn sought<T: Theory, D: Decide<T>>(
    alloc: Global,
    problem: &Problem<T>,
    mode: Mode,
    limits: &Limits,
    decide: &mut D,
) -> Result<Outcome<T, D::Proof, D::Spent>, Want>
    requires problem { ProblemFits T.Theory problem.now }
    ensures { IfOk result (RightOutcomeFor T.Theory D.Decide mode limits.now (question_of T.denotes problem.now)) }
{
    if tries_trees(mode) {
        let outcome = synthesise_beyond(alloc, problem, limits, is_staged(mode), decide)?;
        return Ok(outcome);
    }
    let least = synthesise_least(alloc, problem, limits, decide)?;
    Ok(least)
}

/// Whether the search of this mode goes by stages, if it tries conditional trees.
fn is_staged(mode: Mode) -> bool {
    match mode {
        Mode::Solve | Mode::Check | Mode::Recheck | Mode::Clauses => true,
        Mode::Least | Mode::Drill(_) => false,
    }
}
