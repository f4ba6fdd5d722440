// Answering the problem of a number's file.
ghost use Rattle.std.specs.Prelude.{ℕ, ◌≡◌, ◌≤◌, ◌⊎◌, ◌%◌, [], length, take, map, IfOk, OnErr, All, Any};
ghost use Rattle.std.specs.Io.KnownBytes.{Appends};
ghost use Rattle.sy_io.specs.Causes.{Rose};
ghost use Rattle.sy_grammar_base.specs.Fits.{ProblemFits};
ghost use Rattle.sy_grammar_base.specs.Questions.{question_of};
ghost use Rattle.sygus_drills.specs.Examples as made;
ghost use Rattle.sygus_drills.specs.Lines as lines;
ghost use Rattle.sygus_drills.specs.Counts.{AlwaysFit};
ghost use Rattle.sygus_drills.specs.Asked.{AsksFor};
ghost use Rattle.sygus_replies.specs.Replies.{IsSettled, IsFail, reply_for, replies_for};
ghost use Rattle.sygus_words.specs.declared.settings.Mode.TheVariants as modes;
ghost use Rattle.sygus_answers.specs.RightAnswers.{RightOutcomeFor};
ghost use Rattle.sygus_drills.specs.DrillAnswers.{AnswersDrill, HasSolution, drill_end};

use crate::count::count_met;
use crate::line::{DrillEnd, drill_line};
use std::alloc::Global;
use sy_grammar_base::Problem;
use sy_io::{Bytes, Sink, write_whole};
use sy_loop_spec::{Outcome, fail_name};
use sy_query_base::Decide;
use sy_query_limits::Limits;
use sy_terms::{Seq, Theory, Want};
use sygus_answers::{Solved, sought, status_of};
use sygus_words::Mode;

/// Answers the problem of a number's file by the search of mode `solve`, and writes the line that tells how the drill
/// ended. Where memory is wanted nothing is written.
pub(crate) fn drill<T: Theory, D: Decide<T>, O: Sink>(
    alloc: Global,
    number: u32,
    problem: &Problem<T>,
    limits: &Limits,
    decide: &mut D,
    out: &mut O,
) -> Result<Solved<T, D::Proof, D::Spent>, Want>
    requires problem { ProblemFits T.Theory problem.now }
    requires always { AlwaysFit T.owned }
    requires asks { AsksFor (number % 256) (made.examples number) (question_of T.denotes problem.now) }
    ensures status { IfOk result (λ solved. (solved.status ≤ 1) ⊎ (solved.status ≡ 5)) }

    // 0 and 1: the line is written
    ensures answered { IfOk result (λ solved. solved.status ≤ 1 →
        AnswersDrill (RightOutcomeFor T.Theory D.Decide (modes.Drill number) limits.now)
        (reply_for T.Theory D.Decide) number (question_of T.denotes problem.now)
        solved.answers (Appends (O.written out.old) (O.written out.new))) }
    ensures all_settled { IfOk result
        (λ solved. solved.status ≡ 0 → All IsSettled (replies_for T.Theory D.Decide solved.answers)) }
    ensures some_fail { IfOk result
        (λ solved. solved.status ≡ 1 → Any IsFail (replies_for T.Theory D.Decide solved.answers)) }

    // 5: the write failed
    ensures write { IfOk result (λ solved. solved.status ≡ 5 → Rose (O.faults out.old) (O.faults out.new)) }
    ensures cut_off { IfOk result (λ solved. solved.status ≡ 5 →
        AnswersDrill (RightOutcomeFor T.Theory D.Decide (modes.Drill number) limits.now)
        (reply_for T.Theory D.Decide) number (question_of T.denotes problem.now)
        solved.answers (λ line. (count : ℕ) × Appends (O.written out.old) (O.written out.new) (take count line))) }
    ensures unwritten { OnErr result (O.written out.new ≡ O.written out.old) }
{
    let outcome = sought(alloc, problem, Mode::Drill(number), limits, decide)?;
    let Ok(line) = line_of::<T, D>(alloc, number, problem, &outcome) else {
        drop(outcome);
        return Err(Want {});
    };
    let mut answers = Seq::new(alloc);
    answers.push(outcome)?;
    match write_whole(out, line.as_slice()) {
        Ok(()) => Ok(Solved {
            status: status_of::<T, D>(answers.as_slice()),
            answers,
        }),
        Err(_) => Ok(Solved { status: 5, answers }),
    }
}

/// The line that tells how a drill of this outcome ended.
fn line_of<T: Theory, D: Decide<T>>(
    alloc: Global,
    number: u32,
    problem: &Problem<T>,
    outcome: &Outcome<T, D::Proof, D::Spent>,
) -> Result<Bytes, Want>
    requires problem { ProblemFits T.Theory problem.now }
    requires always { AlwaysFit T.owned }
    requires closed { problem.now.vars ≡ [] }
    requires unassumed { (question_of T.denotes problem.now).assumptions ≡ [] }
    requires count { length (question_of T.denotes problem.now).constraints ≡ 1000 }
    requires solution { HasSolution (question_of T.denotes problem.now) (reply_for T.Theory D.Decide outcome.now) }
    ensures { IfOk result (λ line. line ≡
        lines.drill_line number (drill_end (reply_for T.Theory D.Decide outcome.now))) }
{
    let end = end_of::<T, D>(alloc, problem, outcome)?;
    drill_line(alloc, number, end)
}

/// How a drill of this outcome ended: with definitions, by how many of the 1,000 constraints they meet.
fn end_of<T: Theory, D: Decide<T>>(
    alloc: Global,
    problem: &Problem<T>,
    outcome: &Outcome<T, D::Proof, D::Spent>,
) -> Result<DrillEnd, Want>
    requires problem { ProblemFits T.Theory problem.now }
    requires always { AlwaysFit T.owned }
    requires closed { problem.now.vars ≡ [] }
    requires unassumed { (question_of T.denotes problem.now).assumptions ≡ [] }
    requires count { length (question_of T.denotes problem.now).constraints ≡ 1000 }
    requires solution { HasSolution (question_of T.denotes problem.now) (reply_for T.Theory D.Decide outcome.now) }
    ensures { IfOk result (λ end. end ≡ drill_end (reply_for T.Theory D.Decide outcome.now)) }
{
    match outcome {
        Outcome::Found(bodies, _) => {
            let met = count_met(alloc, problem, bodies)?;
            Ok(DrillEnd::Met(met))
        }
        Outcome::Infeasible => Ok(DrillEnd::Infeasible),
        Outcome::Fail(cause) => Ok(DrillEnd::Failed(fail_name::<T, D>(cause))),
    }
}
