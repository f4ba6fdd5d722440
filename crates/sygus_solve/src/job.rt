// Answering what a file asks for.
ghost use Rattle.std.specs.Prelude.{◌≡◌, ◌≤◌, ◌⊎◌, ◌++◌, length, All, Any};
ghost use Rattle.std.specs.Io.KnownBytes.{Appends};
ghost use Rattle.sy_io.specs.Causes.{Rose};
ghost use Rattle.sy_reply.specs.Writable.{IsTitled};
ghost use Rattle.sy_scope.specs.Fit.{JobFits};
ghost use Rattle.sy_scope.specs.Read.{wish_in};
ghost use Rattle.sygus_replies.specs.Answered.{WritesMost, WritesMostFails};
ghost use Rattle.sygus_replies.specs.Replies.{IsSettled, IsFail};
ghost use Rattle.sygus_replies.specs.Texts.{texts, answer_lines, memory_line};
ghost use Rattle.sygus_answers.specs.Answers.{replies_of, shown_in, AreOfLogic, AreNamedFor};
ghost use Rattle.sygus_answers.specs.RightAnswers.{AreRightAnswers};

use crate::printers::{Logs, Trees};
use crate::problems::solve;
use std::alloc::Global;
use sy_bits::BvDecide;
use sy_intsolve::IntDecide;
use sy_io::Sink;
use sy_meaning_integers::IntTheory;
use sy_meaning_words::BvTheory;
use sy_scope::Job;
use sygus_answers::{Answers, Ended};
use sygus_words::Settings;

/// Answers the problems of a file in order, each by the search of the settings' mode with the solver of the file's
/// logic.
pub(crate) fn answer<O: Sink, E: Sink>(
    alloc: Global,
    job: Job,
    settings: &Settings,
    out: &mut O,
    err: &mut E,
) -> Ended
    requires few { length (wish_in job).questions ≤ 16 }
    requires titled { All (IsTitled (wish_in job).titles) (wish_in job).questions }
    requires fit { JobFits job }
    ensures status { (result.status ≤ 1) ⊎ ((result.status ≡ 5) ⊎ (result.status ≡ 6)) }
    ensures logic { AreOfLogic (wish_in job).logic result.answers }
    ensures right { AreRightAnswers settings.now.mode settings.now.limits (wish_in job).questions result.answers }
    ensures named { AreNamedFor result.answers }

    // 0 and 1: every problem is answered
    ensures every { result.status ≤ 1 → length (replies_of result.answers) ≡ length (wish_in job).questions }
    ensures replied { result.status ≤ 1 → Appends (O.written out.old) (O.written out.new)
        (texts (wish_in job).titles (wish_in job).questions (shown_in settings.now.proofs result.answers)) }
    ensures lines { result.status ≤ 1 → Appends (E.written err.old) (E.written err.new)
        (answer_lines 1 (replies_of result.answers)) }
    ensures all_settled { result.status ≡ 0 → All IsSettled (replies_of result.answers) }
    ensures some_fail { result.status ≡ 1 → Any IsFail (replies_of result.answers) }

    // 5: a write failed
    ensures write { result.status ≡ 5 → Rose (O.faults out.old) (O.faults out.new) ⊎ Rose (E.faults err.old)
        (E.faults err.new) }
    ensures cut_off { result.status ≡ 5 → WritesMost (wish_in job).titles (wish_in job).questions
        (shown_in settings.now.proofs result.answers) (O.written out.old) (O.written out.new) }
    ensures cut_lines { result.status ≡ 5 → WritesMostFails (replies_of result.answers) (E.written err.old)
        (E.written err.new) }

    // 6: memory was wanted
    ensures memory { result.status ≡ 6 → Appends (O.written out.old) (O.written out.new)
        (texts (wish_in job).titles (wish_in job).questions (shown_in settings.now.proofs result.answers)) }
    ensures memory_line { result.status ≡ 6 → Appends (E.written err.old) (E.written err.new)
        (answer_lines 1 (replies_of result.answers) ++ memory_line) }
{
    match job {
        Job::Idle => Ended {
            status: 0,
            answers: Answers::Idle,
        },
        Job::Ints(problems, titles) => {
            let mut decide = IntDecide::new();
            let solved = solve::<IntTheory, IntDecide, Trees, O, E>(
                alloc,
                problems.as_slice(),
                &titles,
                settings,
                &mut decide,
                out,
                err,
            );
            Ended {
                status: solved.status,
                answers: Answers::Ints(solved.answers),
            }
        }
        Job::Bits(problems, titles) => {
            let mut decide = BvDecide::new();
            let solved = solve::<BvTheory, BvDecide, Logs, O, E>(
                alloc,
                problems.as_slice(),
                &titles,
                settings,
                &mut decide,
                out,
                err,
            );
            Ended {
                status: solved.status,
                answers: Answers::Bits(solved.answers),
            }
        }
    }
}
