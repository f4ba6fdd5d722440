// Answering the problem of a number's file.
ghost use Rattle.std.specs.Prelude.{ℕ, ◌≡◌, ◌≤◌, ◌⊎◌, ◌++◌, take, All, Any, IfOk, OnErr};
ghost use Rattle.std.specs.Io.KnownBytes.{Appends};
ghost use Rattle.sy_io.specs.Causes.{Rose};
ghost use Rattle.sygus_replies.specs.Replies.{IsSettled, IsFail};
ghost use Rattle.sygus_replies.specs.Texts.{answer_lines, memory_line};
ghost use Rattle.sygus_answers.specs.Answers.{replies_of, AreNamedFor};
ghost use Rattle.sygus_drills.specs.Drills.{Drilled, EndsDrill, IsProblemOf};

use crate::drill_answers;
use crate::file::drill_file;
use std::alloc::Global;
use sy_bits::BvDecide;
use sy_grammar_base::Problem;
use sy_io::{Sink, Want};
use sy_meaning_words::BvTheory;
use sy_query_limits::Limits;
use sy_scope::{Job, ScopeEnd, read_file};
use sy_terms::Seq;
use sygus_answers::{Answers, Ended, unanswered};

/// Answers the problem of a number's file, and writes the line that tells how the drill ended.
pub fn drill<O: Sink, E: Sink>(
    alloc: Global,
    number: u32,
    limits: &Limits,
    out: &mut O,
    err: &mut E,
) -> Ended
    ensures ends { EndsDrill number limits.now result.status result.answers (O.written out.old) (O.written out.new)
        (E.written err.old) (E.written err.new) }
    ensures status { (result.status ≤ 1) ⊎ ((result.status ≡ 5) ⊎ (result.status ≡ 6)) }
    ensures all_settled { result.status ≡ 0 → All IsSettled (replies_of result.answers) }
    ensures some_fail { result.status ≡ 1 → Any IsFail (replies_of result.answers) }
    ensures named { AreNamedFor result.answers }
    ensures write { result.status ≡ 5 → Rose (O.faults out.old) (O.faults out.new) ⊎ Rose (E.faults err.old)
        (E.faults err.new) }
    ensures memory { result.status ≡ 6 → (result.answers ≡ Answers.Idle) × (O.written out.new ≡ O.written out.old) }
    ensures memory_line { result.status ≡ 6 → Appends (E.written err.old) (E.written err.new)
        (answer_lines 1 (replies_of result.answers) ++ memory_line) }
{
    match drilled(alloc, number, limits, out) {
        Ok(ended) => ended,
        Err(_) => unanswered(err, b"want of memory\n", 6),
    }
}

/// The answer to the problem of a number's file, where memory suffices.
fn drilled<O: Sink>(alloc: Global, number: u32, limits: &Limits, out: &mut O) -> Result<Ended, Want>
    ensures status { IfOk result (λ ended. (ended.status ≤ 1) ⊎ (ended.status ≡ 5)) }
    ensures answered { IfOk result
        (λ ended. ended.status ≤ 1 → Drilled number limits.now ended.answers
        (Appends (O.written out.old) (O.written out.new))) }
    ensures all_settled { IfOk result (λ ended. ended.status ≡ 0 → All IsSettled (replies_of ended.answers)) }
    ensures some_fail { IfOk result (λ ended. ended.status ≡ 1 → Any IsFail (replies_of ended.answers)) }
    ensures named { IfOk result (λ ended. AreNamedFor ended.answers) }
    ensures write { IfOk result (λ ended. ended.status ≡ 5 → Rose (O.faults out.old) (O.faults out.new)) }
    ensures cut_off { IfOk result (λ ended. ended.status ≡ 5 →
        Drilled number limits.now ended.answers (λ line. (count : ℕ) ×
        Appends (O.written out.old) (O.written out.new) (take count line))) }
    ensures unwritten { OnErr result (O.written out.new ≡ O.written out.old) }
{
    let problems = read_drill(alloc, number)?;
    let Some(problem) = problems.get(0) else {
        unreachable!();
    };
    let mut decide = BvDecide::new();
    let solved = drill_answers::drill(alloc, number, problem, limits, &mut decide, out)?;
    Ok(Ended {
        status: solved.status,
        answers: Answers::Bits(solved.answers),
    })
}

/// The problem of a number's file.
fn read_drill(alloc: Global, number: u32) -> Result<Seq<Problem<BvTheory>>, Want>
    ensures { IfOk result (IsProblemOf number) }
{
    let file = drill_file(alloc, number)?;
    match read_file(alloc, file.as_slice()) {
        Ok(Job::Bits(problems, _)) => Ok(problems),
        Ok(Job::Ints(_, _)) => unreachable!(),
        Ok(Job::Idle) => unreachable!(),
        Err(ScopeEnd::Refused(_)) => unreachable!(),
        Err(ScopeEnd::Want) => Err(Want {}),
    }
}
