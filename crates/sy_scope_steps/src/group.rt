// The rules of one nonterminal.
ghost use Rattle.std.specs.Prelude.{◌≡◌, ◌<◌, ◌++◌, OnOk};
ghost use Rattle.std.specs.Option.{option_map};
ghost use Rattle.sy_text_items.specs.Views.{item_of};
ghost use Rattle.sy_terms.specs.Denoted.{vals_of};
ghost use Rattle.sy_forms_items.specs.Rulings.{ruling_of};
ghost use Rattle.sy_forms_items.specs.Readings.{ReadingGives};
ghost use Rattle.sy_forms_items.specs.Seen.{environment_of};
ghost use Rattle.sy_terms.specs.Logics.{Serves};
ghost use Rattle.sy_forms_items.specs.Views.{items_in};
ghost use Rattle.sy_scope_steps.specs.Grammars as spec;
ghost use Rattle.sy_scope_steps.specs.Seen.{collected_of, grouped_of};

use std::alloc::Global;
use sy_forms::{Environment, ReadEnd, Rest, place_of, read_rule, symbol};
use sy_forms_items::Ruling;
use sy_scope_causes::Cause;
use sy_seq::{Seq, Want};
use sy_terms::{Sort, Theory, Values};
use sy_text_items::{Sexp, Sexps};

/// How many rules a grammar may have.
const RULES_MAX: usize = 1024;

/// The rules of a nonterminal so far.
#[derive(Drop)]
pub struct Collected<T: Theory> {
    /// How many rules the grammar has so far.
    pub count: usize,
    /// Those of the nonterminal.
    pub rules: Seq<Ruling<T>>,
    /// The values that were written in the grammar.
    pub values: Values<T>,
}

/// A group's name, its sort, and its rules.
#[derive(Clone, Copy)]
pub struct Grouped<'a> {
    pub name: &'a Sexp,
    pub sort: &'a Sexp,
    pub rules: &'a Sexps,
}

/// Appends the values that were written in a rule.
fn note<T: Theory>(values: &mut Values<T>, ruling: &Ruling<T>) -> Result<(), Want>
    ensures { OnOk result (vals_of T.denotes values.new ≡
        vals_of T.denotes values.old ++ spec.values_in (ruling_of T.denotes ruling.now)) }
{
    match ruling {
        Ruling::Template(phrase) => phrase.literals(values),
        Ruling::EachConstant(_) => Ok(()),
        Ruling::EachVariable(_) => Ok(()),
    }
}

impl<T: Theory> Collected<T> {
    /// Appends a rule that was read.
    fn push(&mut self, ruling: Ruling<T>) -> Result<(), Want>
        requires { self.old.count < 1024 }
        ensures { OnOk result (collected_of T.denotes self.new ≡
            spec.with_rule (collected_of T.denotes self.old) (ruling_of T.denotes ruling)) }
    {
        note(&mut self.values, &ruling)?;
        self.rules.push(ruling)?;
        self.count += 1;
        Ok(())
    }
}

/// The rules of a nonterminal of this sort, behind those before them. For each in turn, `TooMany` comes at it where the
/// grammar has 1,024 rules already, and then the faults of `read_rule`.
pub fn read_rules<T: Theory>(
    alloc: Global,
    env: &Environment<'_>,
    sort: Sort,
    before: Collected<T>,
    items: &Sexps,
) -> Result<Collected<T>, ReadEnd>
    requires { Serves T.numeric env.now.logic }
    ensures { ReadingGives (collected_of T.denotes) result
        (spec.read_rules (environment_of env.now) sort (collected_of T.denotes before) items.now) }
{
    let mut collected = before;
    let mut left = Rest::all(items);
    while let Some((item, rest)) = left.split() {
        if collected.count >= RULES_MAX {
            return Err(ReadEnd::Refused(place_of(item), Cause::TooMany));
        }
        let ruling = read_rule(alloc, env, sort, item)?;
        collected.push(ruling)?;
        left = rest;
    }
    Ok(collected)
}

/// The items of a list of one or more.
fn nonempty(item: &Sexp) -> Option<&Sexps>
    ensures { option_map (λ items. items.now) result ≡ spec.nonempty (item_of item.now) }
{
    match item {
        Sexp::Atom(_, _) => None,
        Sexp::List(items, _) => {
            if Rest::all(items).is_empty() {
                None
            } else {
                Some(items)
            }
        }
    }
}

/// The group of this name, sort and rules.
fn group_with<'a>(name: &'a Sexp, sort: &'a Sexp, rules: Option<&'a Sexps>) -> Option<Grouped<'a>>
    ensures { option_map grouped_of result ≡
        spec.group_with (item_of name.now) (item_of sort.now) (option_map (λ items. items.now) rules.entry) }
{
    let rules = rules?;
    if symbol(name).is_some() {
        Some(Grouped { name, sort, rules })
    } else {
        None
    }
}

/// The group that a list holds.
fn grouped_in(parts: Rest<'_>) -> Option<Grouped<'_>>
    ensures { option_map grouped_of result ≡ spec.grouped_in (items_in parts.entry) }
{
    let (name, rest) = parts.split()?;
    let (sort, rest) = rest.split()?;
    let (rules, rest) = rest.split()?;
    if !rest.is_empty() {
        return None;
    }
    group_with(name, sort, nonempty(rules))
}

/// The parts of a group: a name, which is a symbol, a sort, and a list of one rule or more; `None` at another item.
pub fn group_parts(item: &Sexp) -> Option<Grouped<'_>>
    ensures { option_map grouped_of result ≡ spec.grouped (item_of item.now) }
{
    match item {
        Sexp::Atom(_, _) => None,
        Sexp::List(parts, _) => grouped_in(Rest::all(parts)),
    }
}
