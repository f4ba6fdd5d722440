// Adding the kept terms of further sizes to a bank.
ghost use Rattle.std.specs.Prelude.{◌≡◌, ◌<◌, ◌≤◌, ◌++◌, ◌∷◌, [], true, None, length, map, IfOk};
ghost use Rattle.std.specs.Option.{option_map};
ghost use Rattle.sy_terms.specs.Denoted.{vals_of};
ghost use Rattle.sy_terms.specs.Definitions.{DefinitionsFit, scope_of, bodies};
ghost use Rattle.sy_terms.specs.Meaning.{functions};
ghost use Rattle.sy_grammar_base.specs.Formed.{is_formed};
ghost use Rattle.sy_grammar_base.specs.Grown.{syntax_from};
ghost use Rattle.sy_bank_level.specs.Banks.{kept_count};
ghost use Rattle.sy_bank_level.specs.Stored.{lost_of};
ghost use Rattle.sy_bank_level.specs.Task.{level_of, levels_of};
ghost use Rattle.sy_bank_level.specs.Rows.{ArePointsOf};
ghost use Rattle.sy_bank.specs.Answers.{OnBank, IfFull, BankIsBuilt};
ghost use Rattle.sy_bank_level.specs.Bank.{merged_of};
ghost use Rattle.sy_bank.specs.Promised.{IsBank, BankIsWhole, BankIsFull, IsNextBank, Stays};

use crate::bank::BankEnd;
use crate::rules::fill;
use std::alloc::Global;
use sy_bank_level::{Bank, Filling, Level, Stop, Task};
use sy_grammar_base::Grammar;
use sy_terms::{Defs, Seq, Theory, Values, Want};

/// The bank of these levels and what was kept beyond them.
fn closed<T: Theory>(
    points: Seq<Values<T>>,
    upto: u32,
    levels: Vec<Level<T>>,
    filling: Filling<T>,
) -> Result<Bank<T>, Want>
    ensures merged { IfOk result (λ bank. merged_of T.denotes bank ≡
        record {
          points = map (vals_of T.denotes) points;
          upto = upto;
          levels = levels_of T.denotes levels.items ++
              level_of T.denotes filling.fresh ∷ [];
          dropped = option_map (lost_of T.denotes) filling.dropped;
        }) }
    ensures table { IfOk result (λ bank. bank.table ≡ filling.table) }
    ensures count { IfOk result (λ bank. bank.count ≡ filling.count) }
{
    let mut levels = levels;
    levels.push(filling.fresh)?;
    Ok(Bank {
        points,
        upto,
        levels,
        table: filling.table,
        count: filling.count,
        dropped: filling.dropped,
    })
}

/// Adds the kept terms of the next size.
pub(crate) fn next_size<T: Theory>(
    alloc: Global,
    begun: Bank<T>,
    grammar: &Grammar<T>,
    defs: &Defs<T>,
    pool: &Values<T>,
    cap: u32,
) -> Result<Bank<T>, BankEnd<T>>
    requires definitions { DefinitionsFit T.owned T.denotes defs.now }
    requires formed { is_formed T.numeric (scope_of T.owned defs.now) (syntax_from T.denotes grammar.now) ≡ true }
    requires points { ArePointsOf grammar.now.args (merged_of T.denotes begun).points }
    requires built { BankIsBuilt T.denotes (scope_of T.owned defs.now)
        (syntax_from T.denotes grammar.now) (functions (bodies T.denotes defs.now)) (vals_of T.denotes pool.now) begun }
    requires none_lost { (merged_of T.denotes begun).dropped ≡ None }
    requires open { length begun.levels.items ≤ begun.upto }
    requires room { kept_count (merged_of T.denotes begun).levels ≤ cap }
    ensures next { OnBank T.denotes result (IsNextBank (syntax_from T.denotes grammar.now)
        (functions (bodies T.denotes defs.now)) (vals_of T.denotes pool.now) cap (merged_of T.denotes begun)) }
    ensures built { IfOk result (BankIsBuilt T.denotes (scope_of T.owned defs.now)
        (syntax_from T.denotes grammar.now) (functions (bodies T.denotes defs.now)) (vals_of T.denotes pool.now)) }
    ensures full { IfFull T.denotes result (BankIsFull (syntax_from T.denotes grammar.now)
        (functions (bodies T.denotes defs.now)) (vals_of T.denotes pool.now) cap) }
{
    let Bank {
        points,
        upto,
        levels,
        table,
        count,
        dropped,
    } = begun;
    let mut filling = Filling {
        fresh: Level::new(alloc, grammar.nons().len())?,
        table,
        count,
        dropped,
    };
    let task = Task {
        alloc,
        grammar,
        defs,
        pool,
        points: points.as_slice(),
        levels: levels.as_slice(),
        size: levels.len() as u32,
        cap: cap as usize,
    };
    match fill(&task, &mut filling) {
        Ok(()) => {
            let bank = closed(points, upto, levels, filling)?;
            Ok(bank)
        }
        Err(Stop::Enough) => {
            let bank = closed(points, upto, levels, filling)?;
            Ok(bank)
        }
        Err(Stop::Full(nonterminal, next)) => {
            let bank = closed(points, upto, levels, filling)?;
            Err(BankEnd::Full(bank, nonterminal, next))
        }
        Err(Stop::Want) => Err(BankEnd::Want),
    }
}

/// Adds the kept terms of all sizes that are missing, until one is dropped.
pub(crate) fn all_sizes<T: Theory>(
    alloc: Global,
    begun: Bank<T>,
    grammar: &Grammar<T>,
    defs: &Defs<T>,
    pool: &Values<T>,
    cap: u32,
) -> Result<Bank<T>, BankEnd<T>>
    requires definitions { DefinitionsFit T.owned T.denotes defs.now }
    requires formed { is_formed T.numeric (scope_of T.owned defs.now) (syntax_from T.denotes grammar.now) ≡ true }
    requires points { ArePointsOf grammar.now.args (merged_of T.denotes begun).points }
    requires built { BankIsBuilt T.denotes (scope_of T.owned defs.now)
        (syntax_from T.denotes grammar.now) (functions (bodies T.denotes defs.now)) (vals_of T.denotes pool.now) begun }
    requires room { kept_count (merged_of T.denotes begun).levels ≤ cap }
    ensures bank { OnBank T.denotes result (IsBank (syntax_from T.denotes grammar.now) (functions
        (bodies T.denotes defs.now)) (vals_of T.denotes pool.now) (merged_of T.denotes begun).points begun.upto cap) }
    ensures whole { IfOk result (λ bank. BankIsWhole (syntax_from T.denotes grammar.now)
        (functions (bodies T.denotes defs.now)) (vals_of T.denotes pool.now) (merged_of T.denotes bank)) }
    ensures full { IfFull T.denotes result (BankIsFull (syntax_from T.denotes grammar.now)
        (functions (bodies T.denotes defs.now)) (vals_of T.denotes pool.now) cap) }
    ensures built { IfOk result (BankIsBuilt T.denotes (scope_of T.owned defs.now)
        (syntax_from T.denotes grammar.now) (functions (bodies T.denotes defs.now)) (vals_of T.denotes pool.now)) }
    ensures stays { OnBank T.denotes result (Stays (merged_of T.denotes begun)) }
{
    let upto = begun.upto as usize;
    let mut bank = begun;
    while bank.dropped.is_none() && bank.levels.len() <= upto {
        bank = next_size(alloc, bank, grammar, defs, pool, cap)?;
    }
    Ok(bank)
}
