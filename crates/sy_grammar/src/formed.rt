// Whether grammars are well formed.
ghost use Rattle.std.specs.Prelude.{◌≡◌, map};
ghost use Rattle.std.specs.List.{list_all};
ghost use Rattle.sy_terms.specs.Definitions.{scope_of};
ghost use Rattle.sy_grammar_base.specs.Formed as spec;
ghost use Rattle.sy_grammar_base.specs.Formed.{is_formed, syntax_with};
ghost use Rattle.sy_grammar_base.specs.Trees as trees;
ghost use Rattle.sy_grammar_base.specs.Grown.{nonterminal_of, production_of};

use crate::fitting::part_sort;
use sy_grammar_base::{Non, Rule};
use sy_terms::{Def, Defs, Seq, Sort, Theory, same_sort};

/// Whether these nonterminals are a well-formed grammar over arguments of these sorts, under these definitions: true
/// exactly where there is a start symbol, there are fewer than 2^31 nonterminals, each with fewer than 2^31 rules,
/// every sort is one of the theory's, and each rule fits and has its nonterminal's sort.
pub fn well_formed<T: Theory>(args: &Seq<Sort>, nons: &Seq<Non<T>>, defs: &Defs<T>) -> bool
    ensures { result ≡ is_formed T.numeric (scope_of T.owned defs.now) (syntax_with T.denotes args.now nons.now) }
{
    let (args, nons, defs) = (args.as_slice(), nons.as_slice(), defs.as_slice());
    1 <= nons.len()
        && nons.len() < 1 << 31
        && all_known::<T>(args)
        && all_fit(nons, args, nons, defs)
}

/// Whether all sorts are the theory's.
fn all_known<T: Theory>(sorts: &[Sort]) -> bool
    ensures { result ≡ list_all (spec.is_known T.numeric) sorts.now }
{
    sorts.iter().all(|sort| is_known::<T>(*sort))
}

/// Whether the sort is one of the theory's.
fn is_known<T: Theory>(sort: Sort) -> bool
    ensures { result ≡ spec.is_known T.numeric sort }
{
    match sort {
        Sort::Bool => true,
        Sort::Int | Sort::Bits(_) => T::of_number(sort, 0).is_some(),
    }
}

/// Whether all of the nonterminals fit the grammar.
fn all_fit<T: Theory>(all: &[Non<T>], args: &[Sort], nons: &[Non<T>], defs: &[Def<T>]) -> bool
    ensures { result ≡ list_all (spec.nonterminal_fits T.numeric (scope_of T.owned defs.now)
        (syntax_with T.denotes args.now nons.now)) (map (nonterminal_of T.denotes) all.now) }
{
    all.iter().all(|non| fits(non, args, nons, defs))
}

/// Whether the nonterminal fits the grammar.
fn fits<T: Theory>(non: &Non<T>, args: &[Sort], nons: &[Non<T>], defs: &[Def<T>]) -> bool
    ensures { result ≡ spec.nonterminal_fits T.numeric
        (scope_of T.owned defs.now) (syntax_with T.denotes args.now nons.now) (nonterminal_of T.denotes non.now) }
{
    is_known::<T>(non.sort)
        && non.rules.len() < 1 << 31
        && rules_fit(non.rules.as_slice(), non.sort, args, nons, defs)
}

/// Whether the rules fit and have the sort.
fn rules_fit<T: Theory>(
    rules: &[Rule<T>],
    sort: Sort,
    args: &[Sort],
    nons: &[Non<T>],
    defs: &[Def<T>],
) -> bool
    ensures { result ≡ list_all (λ rule. trees.is_sort sort (spec.rule_sort (scope_of T.owned defs.now)
        (syntax_with T.denotes args.now nons.now) rule)) (map (production_of T.denotes) rules.now) }
{
    rules
        .iter()
        .all(|rule| is_sort(sort, rule_sort(rule, args, nons, defs)))
}

/// The sort of the terms that the rule gives; `None` exactly where it doesn't fit.
fn rule_sort<T: Theory>(
    rule: &Rule<T>,
    args: &[Sort],
    nons: &[Non<T>],
    defs: &[Def<T>],
) -> Option<Sort>
    ensures { result ≡ spec.rule_sort (scope_of T.owned defs.now)
        (syntax_with T.denotes args.now nons.now) (production_of T.denotes rule.now) }
{
    match rule {
        Rule::Term(part) => part_sort(part, args, nons, defs),
        Rule::AnyConstant(sort) => Some(*sort),
        Rule::AnyVariable(sort) => Some(*sort),
    }
}

/// Whether a sort was found, and it is this one.
fn is_sort(sort: Sort, found: Option<Sort>) -> bool
    ensures { result ≡ trees.is_sort sort found }
{
    match found {
        Some(found) => same_sort(&sort, &found),
        None => false,
    }
}
