// What rules give by a table of the largest sizes known.
ghost use Rattle.std.specs.Prelude.{◌≡◌, ℕ, ◌↔◌, ◌<◌, IsTrue, map, length, MatchOption, Some};
ghost use Rattle.sy_grammar_base.specs.Patterns as patterns;
ghost use Rattle.sy_grammar_base.specs.Patterns.{Pattern, all_occurring};
ghost use Rattle.sy_grammar_base.specs.Trees.{Template};
ghost use Rattle.sy_grammar_base.specs.Written.{pattern_of, patterns_of};
ghost use Rattle.sy_grammar_base.specs.Grown.{production_of, syntax_from};
ghost use Rattle.sy_grammar_sizes.specs.Tables as spec;
ghost use Rattle.sy_grammar_sizes.specs.Tables.{pattern_size, cut, entries_total, Exceeds, IsImproved, IsImprovedBy, IsStable};

use sy_grammar_base::{Grammar, Part, Parts, Rule};
use sy_terms::Theory;

/// A nonterminal with a size by one of its rules that is larger than its entry; `None` exactly where there is none.
pub fn next_larger<T: Theory>(
    g: &Grammar<T>,
    table: &[Option<u64>],
    limit: u64,
) -> Option<(usize, u64)>
    ensures { MatchOption result
        (IsStable (syntax_from T.denotes g.now) limit table.now)
        (λ pair. (pair.0 < length g.now.nons) ×
        IsImproved (syntax_from T.denotes g.now) limit table.now pair.0 pair.1) }
{
    for (nonterminal, item) in g.nons().as_slice().iter().enumerate() {
        let known = entry(table, nonterminal);
        if let Some(size) = improved_by(item.rules.as_slice(), table, known, limit) {
            return Some((nonterminal, size));
        }
    }
    None
}

/// A size by one of the rules that is larger than the known one; `None` exactly where there is none.
fn improved_by<T: Theory>(
    rules: &[Rule<T>],
    table: &[Option<u64>],
    known: Option<u64>,
    limit: u64,
) -> Option<u64>
    ensures { MatchOption result
        ((size : ℕ) → IsImprovedBy (map (production_of T.denotes) rules.now) limit table.now known size → ⊥)
        (λ size. IsImprovedBy (map (production_of T.denotes) rules.now) limit table.now known size) }
{
    for rule in rules {
        if let Some(size) = rule_size(rule, table, limit) {
            if exceeds(known, size) {
                return Some(size);
            }
        }
    }
    None
}

/// Whether the size is larger than the known one.
fn exceeds(known: Option<u64>, size: u64) -> bool
    ensures { IsTrue result ↔ Exceeds known size }
{
    match known {
        Some(known) => known < size,
        None => true,
    }
}

/// The size that the rule's part has by the table, at most `limit`; `None` exactly where it has none, or the rule is
/// for all of a sort.
fn rule_size<T: Theory>(rule: &Rule<T>, table: &[Option<u64>], limit: u64) -> Option<u64>
    ensures { MatchOption result
        ((pattern : Pattern) (size : ℕ) → production_of T.denotes rule.now ≡ Template pattern →
        pattern_size limit table.now pattern ≡ Some size → ⊥)
        (λ size. (pattern : Pattern) × (production_of T.denotes rule.now ≡ Template pattern) ×
        (pattern_size limit table.now pattern ≡ Some size)) }
{
    match rule {
        Rule::Term(part) => part_size(part, table, limit),
        Rule::AnyConstant(_) => None,
        Rule::AnyVariable(_) => None,
    }
}

/// The part's own size and the entries of its nonterminals, at most `limit`; `None` exactly where one has no entry.
#[cycle(part_size)]
fn part_size<T: Theory>(part: &Part<T>, table: &[Option<u64>], limit: u64) -> Option<u64>
    ensures { result ≡ pattern_size limit table.now (pattern_of T.denotes part.now) }
{
    let below = match part {
        Part::Non(nonterminal) => {
            return match entry(table, *nonterminal as usize) {
                Some(size) => Some(limit.min(size)),
                None => None,
            };
        }
        Part::Const(_) => 0,
        Part::Var(_) => 0,
        Part::App(_, parts) => parts_size(parts, table, limit)?,
        Part::Call(_, parts) => parts_size(parts, table, limit)?,
    };
    Some(below.saturating_add(1).min(limit))
}

/// The same over all parts.
#[cycle(part_size)]
fn parts_size<T: Theory>(parts: &Parts<T>, table: &[Option<u64>], limit: u64) -> Option<u64>
    ensures { result ≡ cut limit (patterns.own_sizes (patterns_of T.denotes parts.now.items.items))
        (entries_total table.now (all_occurring (patterns_of T.denotes parts.now.items.items))) }
{
    let mut sum = 0u64;
    for part in parts.as_slice() {
        let size = part_size(part, table, limit)?;
        sum = sum.saturating_add(size).min(limit);
    }
    Some(sum)
}

/// The nonterminal's entry.
pub fn entry(table: &[Option<u64>], nonterminal: usize) -> Option<u64>
    ensures { result ≡ spec.table_entry table.now nonterminal }
{
    *table.get(nonterminal)?
}
