// Which nonterminals derive constants alone, by the written form of their rules.
ghost use Rattle.std.specs.Prelude.{◌≡◌, IfOk};
ghost use Rattle.std.specs.Option.{option_map};
ghost use Rattle.sy_text_items.specs.Views.{item_of};
ghost use Rattle.sy_forms_items.specs.Views.{items_in};
ghost use Rattle.sy_forms_items.specs.Seen.{environment_of};
ghost use Rattle.sy_forms_linear.specs.Flags as spec;

use std::alloc::Global;
use sy_forms_items::{Environment, Named, Rest, is_symbol, numeral, read_sort};
use sy_terms::{Seq, Sort, Want, same_sort};
use sy_text_items::{Sexp, Sexps};

/// A kind of rules.
#[derive(Clone, Copy)]
pub enum Kind {
    /// A numeral, `(- n)` with a numeral `n`, or `(Constant Int)`.
    Constant,
    /// A numeral of at least 1, or `(- n)` with such a numeral `n`.
    Divisor,
}

/// The other item in a list of a word and an item.
pub fn item_behind<'a>(word: &[u8], items: Rest<'a>) -> Option<&'a Sexp>
    ensures { option_map (λ item. item_of item.now) result ≡ spec.item_behind word.now (items_in items.entry) }
{
    let (head, rest) = items.split()?;
    let (item, rest) = rest.split()?;
    if rest.is_empty() && is_symbol(head, word) {
        Some(item)
    } else {
        None
    }
}

/// Whether the item is this sort.
pub fn has_sort(env: &Environment<'_>, sort: Sort, item: &Sexp) -> bool
    ensures { result ≡ spec.has_sort (environment_of env.now) sort (item_of item.now) }
{
    match read_sort(env.logic, env.names, item) {
        Ok(found) => same_sort(&found, &sort),
        Err(_) => false,
    }
}

/// Whether this is `(- n)` with a numeral `n`.
fn is_negated_numeral(items: Rest<'_>) -> bool
    ensures { result ≡ spec.is_negated_numeral (items_in items.entry) }
{
    let Some((head, rest)) = items.split() else {
        return false;
    };
    let Some((n, rest)) = rest.split() else {
        return false;
    };
    rest.is_empty() && is_symbol(head, b"-") && numeral(n).is_some()
}

/// Whether the rule is a numeral, `(- n)` with a numeral `n`, or `(Constant Int)`.
fn is_constant_rule(env: &Environment<'_>, item: &Sexp) -> bool
    ensures { result ≡ spec.is_constant_rule (environment_of env.now) (item_of item.now) }
{
    let Sexp::List(items, _) = item else {
        return numeral(item).is_some();
    };
    if is_negated_numeral(Rest::all(items)) {
        return true;
    }
    match item_behind(b"Constant", Rest::all(items)) {
        Some(sort) => has_sort(env, Sort::Int, sort),
        None => false,
    }
}

/// Whether the item is a numeral of at least 1.
fn is_positive_numeral(item: &Sexp) -> bool
    ensures { result ≡ spec.is_positive_numeral (item_of item.now) }
{
    match numeral(item) {
        Some(n) => n >= 1,
        None => false,
    }
}

/// Whether the rule is a numeral of at least 1, or `(- n)` with such a numeral `n`.
fn is_divisor_rule(item: &Sexp) -> bool
    ensures { result ≡ spec.is_divisor_rule (item_of item.now) }
{
    let Sexp::List(items, _) = item else {
        return is_positive_numeral(item);
    };
    match item_behind(b"-", Rest::all(items)) {
        Some(n) => is_positive_numeral(n),
        None => false,
    }
}

/// Whether the rule is of the kind.
fn is_of_kind(kind: Kind, env: &Environment<'_>, item: &Sexp) -> bool
    ensures { result ≡ spec.is_of_kind kind (environment_of env.now) (item_of item.now) }
{
    match kind {
        Kind::Constant => is_constant_rule(env, item),
        Kind::Divisor => is_divisor_rule(item),
    }
}

/// Whether each rule of a list is of the kind.
fn are_of_kind(kind: Kind, env: &Environment<'_>, items: Rest<'_>) -> bool
    ensures { result ≡ spec.are_of_kind kind (environment_of env.now) (items_in items.entry) }
{
    let mut left = items;
    while let Some((item, rest)) = left.split() {
        if !is_of_kind(kind, env, item) {
            return false;
        }
        left = rest;
    }
    true
}

/// Whether the item is a list of one rule or more, each of which is of the kind.
fn has_rules_of_kind(kind: Kind, env: &Environment<'_>, item: &Sexp) -> bool
    ensures { result ≡ spec.has_rules_of_kind kind (environment_of env.now) (item_of item.now) }
{
    match item {
        Sexp::Atom(_, _) => false,
        Sexp::List(rules, _) => {
            let rules = Rest::all(rules);
            !rules.is_empty() && are_of_kind(kind, env, rules)
        }
    }
}

/// Whether the items are a name, its sort and rules of the kind.
fn has_parts_of_kind(kind: Kind, env: &Environment<'_>, named: &Named, items: Rest<'_>) -> bool
    ensures { result ≡ spec.has_parts_of_kind kind (environment_of env.now) named.now (items_in items.entry) }
{
    let Some((name, rest)) = items.split() else {
        return false;
    };
    let Some((sort, rest)) = rest.split() else {
        return false;
    };
    let Some((rules, rest)) = rest.split() else {
        return false;
    };
    rest.is_empty()
        && is_symbol(name, named.name.as_slice())
        && has_sort(env, named.sort, sort)
        && has_rules_of_kind(kind, env, rules)
}

/// Whether the item is a group of the nonterminal in which each rule is of the kind.
fn is_group_of_kind(kind: Kind, env: &Environment<'_>, named: &Named, item: &Sexp) -> bool
    ensures { result ≡ spec.is_group_of_kind kind (environment_of env.now) named.now (item_of item.now) }
{
    match item {
        Sexp::Atom(_, _) => false,
        Sexp::List(items, _) => has_parts_of_kind(kind, env, named, Rest::all(items)),
    }
}

/// Whether the nonterminal has rules of the kind alone, by the first group that is left, and the groups behind it.
fn next_flag<'a>(
    kind: Kind,
    env: &Environment<'_>,
    named: &Named,
    left: Rest<'a>,
) -> (bool, Rest<'a>)
    ensures { spec.TakesOff kind (environment_of env.now) named.now (items_in left.entry) result.0 (items_in result.1) }
{
    match left.split() {
        Some((group, rest)) => (is_group_of_kind(kind, env, named, group), rest),
        None => (false, left),
    }
}

/// Which nonterminals have rules of the kind alone, by their groups in order. One without a group doesn't.
fn groups_of_kind(
    alloc: Global,
    kind: Kind,
    env: &Environment<'_>,
    nonterminals: &[Named],
    groups: &Sexps,
) -> Result<Seq<bool>, Want>
    ensures { IfOk result (λ flags. flags ≡
        spec.flags_of_kind kind (environment_of env.now) nonterminals.now groups.now) }
{
    let mut flags = Seq::new(alloc);
    let mut left = Rest::all(groups);
    for named in nonterminals {
        let (flag, rest) = next_flag(kind, env, named, left);
        flags.push(flag)?;
        left = rest;
    }
    Ok(flags)
}

/// Which nonterminals derive numerals alone: each rule is a numeral, `(- n)` with a numeral `n`, or `(Constant Int)`.
/// One without a group of its own doesn't. `Want` comes where memory runs out.
pub fn constant_groups(
    alloc: Global,
    env: &Environment<'_>,
    nonterminals: &[Named],
    groups: &Sexps,
) -> Result<Seq<bool>, Want>
    ensures { IfOk result (λ flags. flags ≡ spec.constant_groups (environment_of env.now) nonterminals.now groups.now) }
{
    let flags = groups_of_kind(alloc, Kind::Constant, env, nonterminals, groups)?;
    Ok(flags)
}

/// Which nonterminals one may divide by: each rule is a numeral of at least 1, or `(- n)` with such a numeral `n`. One
/// without a group of its own isn't. `Want` comes where memory runs out.
pub fn divisor_groups(
    alloc: Global,
    env: &Environment<'_>,
    nonterminals: &[Named],
    groups: &Sexps,
) -> Result<Seq<bool>, Want>
    ensures { IfOk result (λ flags. flags ≡ spec.divisor_groups (environment_of env.now) nonterminals.now groups.now) }
{
    let flags = groups_of_kind(alloc, Kind::Divisor, env, nonterminals, groups)?;
    Ok(flags)
}
