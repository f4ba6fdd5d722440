// A bank of one function to be found, up to a size.

ghost use Rattle.std.specs.Prelude.{◌≡◌, true, map, IfOk};
ghost use Rattle.sy_terms.specs.Denoted.{vals_of};
ghost use Rattle.sy_terms.specs.Definitions.{DefinitionsFit, scope_of, bodies};
ghost use Rattle.sy_terms.specs.Meaning.{functions};
ghost use Rattle.sy_grammar_base.specs.Formed.{is_formed};
ghost use Rattle.sy_grammar_base.specs.Grown.{syntax_from};
ghost use Rattle.sy_bank_level.specs.Rows.{ArePointsOf};
ghost use Rattle.sy_bank.specs.Answers.{OnBank, IfFull, BankIsBuilt};
ghost use Rattle.sy_bank_level.specs.Bank.{merged_of};
ghost use Rattle.sy_bank.specs.Promised.{IsBank, BankIsWhole, BankIsFull};

use std::alloc::Global;
use sy_bank::{Bank, BankEnd, build};
use sy_grammar_base::{Problem, Wanted};
use sy_query_limits::Limits;
use sy_terms::{Seq, Theory, Values};

/// A bank of the function's grammar up to this size over these points, of at most as many terms as the limits say.
pub(crate) fn new_bank<T: Theory>(
    alloc: Global,
    problem: &Problem<T>,
    limits: &Limits,
    wanted: &Wanted<T>,
    points: &Seq<Values<T>>,
    level: u32,
) -> Result<Bank<T>, BankEnd<T>>
    requires definitions { DefinitionsFit T.owned T.denotes problem.now.defs }
    requires formed { is_formed T.numeric (scope_of T.owned problem.now.defs)
        (syntax_from T.denotes wanted.now.grammar) ≡ true }
    requires points { ArePointsOf wanted.now.grammar.args (map (vals_of T.denotes) points.now) }
    ensures bank { OnBank T.denotes result
        (IsBank (syntax_from T.denotes wanted.now.grammar) (functions (bodies T.denotes problem.now.defs))
        (vals_of T.denotes problem.now.pool) (map (vals_of T.denotes) points.now) level limits.now.bank) }
    ensures whole { IfOk result (λ bank. BankIsWhole (syntax_from T.denotes wanted.now.grammar) (functions
        (bodies T.denotes problem.now.defs)) (vals_of T.denotes problem.now.pool) (merged_of T.denotes bank)) }
    ensures full { IfFull T.denotes result (BankIsFull (syntax_from T.denotes wanted.now.grammar)
        (functions (bodies T.denotes problem.now.defs)) (vals_of T.denotes problem.now.pool) limits.now.bank) }
    ensures built { IfOk result (BankIsBuilt T.denotes (scope_of T.owned problem.now.defs) (syntax_from T.denotes
        wanted.now.grammar) (functions (bodies T.denotes problem.now.defs)) (vals_of T.denotes problem.now.pool)) }
{
    build(
        alloc,
        &wanted.grammar,
        &problem.defs,
        &problem.pool,
        points,
        level,
        limits.bank,
    )
}
