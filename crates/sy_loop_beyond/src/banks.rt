// Banks of the one function to be found.
ghost use Rattle.std.specs.Prelude.{◌≡◌, length, map, true, IfOk, IfSome};
ghost use Rattle.sy_terms.specs.Definitions.{DefinitionsFit, bodies, scope_of};
ghost use Rattle.sy_terms.specs.Denoted.{vals_of};
ghost use Rattle.sy_terms.specs.Meaning.{functions};
ghost use Rattle.sy_grammar_base.specs.Fits.{ProblemFits};
ghost use Rattle.sy_grammar_base.specs.Formed.{is_formed};
ghost use Rattle.sy_grammar_base.specs.Grown.{syntax_from};
ghost use Rattle.sy_grammar_base.specs.Questions.{question_of};
ghost use Rattle.sy_bank_level.specs.Rows.{ArePointsOf};
ghost use Rattle.sy_bank_level.specs.Bank.{merged_of};
ghost use Rattle.sy_bank.specs.Promised.{IsBank};
ghost use Rattle.sy_loop_bodies.specs.Banked.{IsOneBank};

use std::alloc::Global;
use sy_bank::{Bank, BankEnd, build};
use sy_grammar_base::{Problem, Wanted};
use sy_loop_bodies::points_of;
use sy_terms::{Seq, Theory, Values, Want};

/// A bank of the one function to be found over these tuples, of terms up to the size `upto` and of at most `cap` terms:
/// all of them, or as many as there was room for. `None` where a tuple isn't of the function's arguments. `Want` comes
/// where memory runs out, and where 32 bits don't count the tuples or the arguments.
pub(crate) fn bank_over<T: Theory>(
    alloc: Global,
    problem: &Problem<T>,
    tuples: &[Values<T>],
    upto: u32,
    cap: u32,
) -> Result<Option<Bank<T>>, Want>
    requires problem { ProblemFits T.Theory problem.now }
    requires one { length problem.now.wanted ≡ 1 }
    ensures honest { IfOk result (λ found.
        IfSome found (λ bank. IsOneBank (question_of T.denotes problem.now) (merged_of T.denotes bank))) }
    ensures over { IfOk result (λ found.
        IfSome found (λ bank. (merged_of T.denotes bank).points ≡ map (vals_of T.denotes) tuples.now)) }
{
    let Some(wanted) = problem.wanted.get(0) else {
        return Ok(None);
    };
    let Some(points) = points_of::<T>(alloc, wanted.grammar.args().as_slice(), tuples)? else {
        return Ok(None);
    };
    let bank = bank_of(alloc, problem, wanted, &points, upto, cap)?;
    Ok(Some(bank))
}

/// What `build` answers for the function, full or not.
fn bank_of<T: Theory>(
    alloc: Global,
    problem: &Problem<T>,
    wanted: &Wanted<T>,
    points: &Seq<Values<T>>,
    upto: u32,
    cap: u32,
) -> Result<Bank<T>, Want>
    requires definitions { DefinitionsFit T.owned T.denotes problem.now.defs }
    requires formed { is_formed T.numeric (scope_of T.owned problem.now.defs)
        (syntax_from T.denotes wanted.now.grammar) ≡ true }
    requires points { ArePointsOf wanted.now.grammar.args (map (vals_of T.denotes) points.now) }
    ensures { IfOk result (λ bank.
        IsBank (syntax_from T.denotes wanted.now.grammar) (functions (bodies T.denotes problem.now.defs))
        (vals_of T.denotes problem.now.pool) (map (vals_of T.denotes) points.now) upto cap (merged_of T.denotes bank)) }
{
    match build(
        alloc,
        &wanted.grammar,
        &problem.defs,
        &problem.pool,
        points,
        upto,
        cap,
    ) {
        Ok(bank) => Ok(bank),
        Err(BankEnd::Full(bank, _, _)) => Ok(bank),
        Err(BankEnd::Want) => Err(Want {}),
    }
}
