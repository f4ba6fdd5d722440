// The largest sizes that rules for all of a sort give.
ghost use Rattle.std.specs.Prelude.{◌≡◌, ℕ, ◌↔◌, IsTrue, map, IfOk, slice_get, true};
ghost use Rattle.sy_terms.specs.Denoted.{val_of};
ghost use Rattle.sy_grammar_base.specs.Trees.{is_sort};
ghost use Rattle.sy_grammar_base.specs.Grown.{production_of, syntax_from};
ghost use Rattle.sy_grammar_sizes.specs.Tables as spec;
ghost use Rattle.sy_grammar_sizes.specs.Tables.{GivesLeaf, GivesLeaves, IsBest, IsTable};

use crate::chains_constants::largest_constant;
use std::alloc::{AllocError, Global};
use sy_grammar_base::{Grammar, Rule};
use sy_terms::{Sort, Theory, Value, same_sort};

/// Per nonterminal the largest size that its rules for all of a sort give, at most `limit`.
pub fn leaf_table<T: Theory>(
    alloc: Global,
    g: &Grammar<T>,
    pool: &[Value<T::Num>],
    limit: u64,
) -> Result<Vec<Option<u64>>, AllocError>
    ensures { IfOk result (λ table.
        IsTable (syntax_from T.denotes g.now) (map (val_of T.denotes) pool.now) limit table.items) }
{
    let mut table = Vec::new(alloc);
    for item in g.nons().as_slice() {
        let best = leaves::<T>(
            alloc,
            g.args().as_slice(),
            item.rules.as_slice(),
            pool,
            limit,
        )?;
        table.push(best)?;
    }
    Ok(table)
}

/// The largest size that these rules give as far as they are for all of a sort, at most `limit`; `None` exactly where
/// they give none.
fn leaves<T: Theory>(
    alloc: Global,
    arguments: &[Sort],
    rules: &[Rule<T>],
    pool: &[Value<T::Num>],
    limit: u64,
) -> Result<Option<u64>, AllocError>
    ensures { IfOk result (IsBest limit
        (GivesLeaves arguments.now (map (val_of T.denotes) pool.now) (map (production_of T.denotes) rules.now))) }
{
    let mut best = None;
    for rule in rules {
        let next = leaf::<T>(alloc, arguments, rule, pool, limit)?;
        best = larger(best, next);
    }
    Ok(best)
}

/// The largest size that the rule gives if it is for all of a sort, at most `limit`; `None` exactly where it gives
/// none.
fn leaf<T: Theory>(
    alloc: Global,
    arguments: &[Sort],
    rule: &Rule<T>,
    pool: &[Value<T::Num>],
    limit: u64,
) -> Result<Option<u64>, AllocError>
    ensures { IfOk result
        (IsBest limit (GivesLeaf arguments.now (map (val_of T.denotes) pool.now) (production_of T.denotes rule.now))) }
{
    match rule {
        Rule::Term(_) => Ok(None),
        Rule::AnyConstant(sort) => match largest_constant::<T>(alloc, *sort, pool)? {
            Some(size) => Ok(Some(limit.min(u64::from(size)))),
            None => Ok(None),
        },
        Rule::AnyVariable(sort) => {
            if has_argument(arguments, *sort) {
                Ok(Some(limit.min(1)))
            } else {
                Ok(None)
            }
        }
    }
}

/// Whether some argument has the sort.
fn has_argument(arguments: &[Sort], sort: Sort) -> bool
    ensures { IsTrue result ↔ ((position : ℕ) × (is_sort sort (slice_get arguments.now position) ≡ true)) }
{
    for argument in arguments {
        if same_sort(&sort, argument) {
            return true;
        }
    }
    false
}

/// The larger of two sizes, where there are any.
fn larger(first: Option<u64>, second: Option<u64>) -> Option<u64>
    ensures { result ≡ spec.larger first second }
{
    match (first, second) {
        (None, second) => second,
        (Some(m), None) => Some(m),
        (Some(m), Some(n)) => Some(m.max(n)),
    }
}
