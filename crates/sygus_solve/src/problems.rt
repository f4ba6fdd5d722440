// Answering problems in order.
ghost use Rattle.std.specs.Prelude.{◌≡◌, ◌≤◌, ◌<◌, ◌^◌, ◌⊎◌, ◌++◌, length, map, OnOk, IsErrOf, All, Any};
ghost use Rattle.std.specs.Io.KnownBytes.{Appends};
ghost use Rattle.sy_io.specs.Causes.{Rose};
ghost use Rattle.sy_grammar_base.specs.Questions.{question_of};
ghost use Rattle.sygus_replies.specs.Answerable.{IsAnswerable, IsAnswerableFor};
ghost use Rattle.sygus_replies.specs.Answered.{WritesMost, WritesMostFails, AnswersNext, BreaksNext};
ghost use Rattle.sygus_replies.specs.Replies.{IsSettled, IsFail, reply_for, replies_for, shown_for, all_shown_for};
ghost use Rattle.sygus_replies.specs.Texts.{texts, answer_lines, memory_line};
ghost use Rattle.sygus_answers.specs.RightAnswers.{RightOutcomeFor, AreRightFor};

use std::alloc::Global;
use sy_grammar_base::Problem;
use sy_io::Sink;
use sy_loop_spec::Outcome;
use sy_query_base::Decide;
use sy_scope_causes::Titles;
use sy_terms::{Seq, Theory, Want};
use sygus_answers::{Solved, sought, status_of};
use sygus_replies::{Prints, WriteFault, answer_line, answer_text, last, write_both};
use sygus_words::Settings;

/// Answers the problems in order, each by the search of the settings' mode with this solver. Of each answer the text,
/// with the proof where proofs are asked for, and the line are written before the next problem is sought.
pub(crate) fn solve<T: Theory, D: Decide<T>, S: Prints<D::Proof>, O: Sink, E: Sink>(
    alloc: Global,
    problems: &[Problem<T>],
    titles: &Titles,
    settings: &Settings,
    decide: &mut D,
    out: &mut O,
    err: &mut E,
) -> Solved<T, D::Proof, D::Spent>
    requires few { length problems.now < 2 ^ 31 }
    requires answerable { All (IsAnswerable T.owned T.numeric titles.now) (map (question_of T.denotes) problems.now) }
    ensures status { (result.status ≤ 1) ⊎ ((result.status ≡ 5) ⊎ (result.status ≡ 6)) }
    ensures right { AreRightFor T.Theory D.Decide settings.now.mode settings.now.limits problems.now result.answers }

    // 0 and 1: every problem is answered
    ensures every { result.status ≤ 1 → length result.answers ≡ length problems.now }
    ensures replied { result.status ≤ 1 → Appends (O.written out.old) (O.written out.new)
        (texts titles.now (map (question_of T.denotes) problems.now)
        (all_shown_for T.Theory D.Decide S.Prints settings.now.proofs result.answers)) }
    ensures lines { result.status ≤ 1 → Appends (E.written err.old) (E.written err.new)
        (answer_lines 1 (replies_for T.Theory D.Decide result.answers)) }
    ensures all_settled { result.status ≡ 0 → All IsSettled (replies_for T.Theory D.Decide result.answers) }
    ensures some_fail { result.status ≡ 1 → Any IsFail (replies_for T.Theory D.Decide result.answers) }

    // 5: a write failed
    ensures write { result.status ≡ 5 → Rose (O.faults out.old) (O.faults out.new) ⊎ Rose (E.faults err.old)
        (E.faults err.new) }
    ensures cut_off { result.status ≡ 5 → WritesMost titles.now (map (question_of T.denotes) problems.now)
        (all_shown_for T.Theory D.Decide S.Prints settings.now.proofs result.answers) (O.written out.old)
        (O.written out.new) }
    ensures cut_lines { result.status ≡ 5 → WritesMostFails (replies_for T.Theory D.Decide result.answers)
        (E.written err.old) (E.written err.new) }

    // 6: memory was wanted
    ensures memory { result.status ≡ 6 → Appends (O.written out.old) (O.written out.new)
        (texts titles.now (map (question_of T.denotes) problems.now)
        (all_shown_for T.Theory D.Decide S.Prints settings.now.proofs result.answers)) }
    ensures memory_line { result.status ≡ 6 → Appends (E.written err.old) (E.written err.new)
        (answer_lines 1 (replies_for T.Theory D.Decide result.answers) ++ memory_line) }
{
    let mut answers = Seq::new(alloc);
    for problem in problems {
        match answer_next::<T, D, S, O, E>(
            alloc,
            titles,
            problem,
            settings,
            decide,
            &mut answers,
            out,
            err,
        ) {
            Ok(()) => {}
            Err(Stop::Write) => return Solved { status: 5, answers },
            Err(Stop::Memory) => {
                let status = last(err, b"want of memory\n", 6);
                return Solved { status, answers };
            }
        }
    }
    let status = status_of::<T, D>(answers.as_slice());
    Solved { status, answers }
}

/// Why no more problems are answered.
#[derive(Clone, Copy, Debug, PartialEq, Eq)]
enum Stop {
    Write,
    Memory,
}

/// Answers one problem, and writes its text and its line.
/// Eight parameters: the contract speaks of what each of the two outputs was given, so they stay apart.
fn answer_next<T: Theory, D: Decide<T>, S: Prints<D::Proof>, O: Sink, E: Sink>(
    alloc: Global,
    titles: &Titles,
    problem: &Problem<T>,
    settings: &Settings,
    decide: &mut D,
    answers: &mut Seq<Outcome<T, D::Proof, D::Spent>>,
    out: &mut O,
    err: &mut E,
) -> Result<(), Stop>
    requires few { length answers.old < 2 ^ 31 }
    requires answerable { IsAnswerableFor T.Theory titles.now problem.now }
    ensures ok { OnOk result (AnswersNext
        (RightOutcomeFor T.Theory D.Decide settings.now.mode settings.now.limits) (reply_for T.Theory D.Decide)
        (shown_for T.Theory D.Decide S.Prints settings.now.proofs) titles.now (question_of T.denotes problem.now)
        answers.old answers.new (O.written out.old) (O.written out.new) (E.written err.old) (E.written err.new)) }
    ensures broken { IsErrOf result Stop.Write → BreaksNext
        (RightOutcomeFor T.Theory D.Decide settings.now.mode settings.now.limits) (reply_for T.Theory D.Decide)
        (shown_for T.Theory D.Decide S.Prints settings.now.proofs) titles.now (question_of T.denotes problem.now)
        answers.old answers.new (O.written out.old) (O.written out.new) (E.written err.old) (E.written err.new) }
    ensures cause { IsErrOf result Stop.Write → Rose (O.faults out.old) (O.faults out.new) ⊎ Rose (E.faults err.old)
        (E.faults err.new) }
    ensures unchanged { IsErrOf result Stop.Memory → answers.new ≡ answers.old }
    ensures unwritten { IsErrOf result Stop.Memory → O.written out.new ≡ O.written out.old }
    ensures unlined { IsErrOf result Stop.Memory → E.written err.new ≡ E.written err.old }
    ensures later_out { O.faults out.old ≤ O.faults out.new }
    ensures later_err { E.faults err.old ≤ E.faults err.new }
{
    let check = (answers.len() + 1) as u32;
    let Ok(answer) = sought(alloc, problem, settings.mode, &settings.limits, decide) else {
        return Err(Stop::Memory);
    };
    let Ok(text) = answer_text::<T, D, S>(alloc, titles, problem, &answer, settings.proofs) else {
        drop(answer);
        return Err(Stop::Memory);
    };
    let Ok(line) = answer_line::<T, D>(alloc, check, &answer) else {
        drop(answer);
        return Err(Stop::Memory);
    };
    let Ok(()) = answers.push(answer) else {
        return Err(Stop::Memory);
    };
    match write_both(text.as_slice(), line.as_slice(), out, err) {
        Ok(()) => Ok(()),
        Err(WriteFault) => Err(Stop::Write),
    }
}
