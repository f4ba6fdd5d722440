// Groups of rules, one for each nonterminal.
ghost use Rattle.std.specs.Prelude.{◌≡◌, OnOk};
ghost use Rattle.std.specs.Option.{option_map};
ghost use Rattle.sy_text_items.specs.Views.{item_of};
ghost use Rattle.sy_forms_items.specs.Readings.{ReadingGives};
ghost use Rattle.sy_forms_items.specs.Seen.{environment_of};
ghost use Rattle.sy_terms.specs.Logics.{Serves};
ghost use Rattle.sy_forms_items.specs.Views.{items_in};
ghost use Rattle.sy_scope_steps.specs.Grammars as spec;
ghost use Rattle.sy_scope_steps.specs.Seen.{collected_of, grouped_of, grown_grammar_of};

use crate::group::{Collected, Grouped, group_parts, read_rules};
use std::alloc::Global;
use sy_forms::{Environment, Named, ReadEnd, Rest, has_sort, is_symbol, place_of};
use sy_scope_causes::Cause;
use sy_scope_names::Group;
use sy_seq::{Seq, Want};
use sy_terms::{Sort, Theory, Values};
use sy_text_items::{Place, Sexp, Sexps};

/// The nonterminals whose rules were read.
#[derive(Drop)]
pub struct Grown<T: Theory> {
    /// How many rules they have.
    pub count: usize,
    pub groups: Seq<Group<T>>,
    /// The values that were written in the rules.
    pub values: Values<T>,
}

impl<T: Theory> Grown<T> {
    /// None. It takes no memory.
    fn new(alloc: Global) -> Self
        ensures { grown_grammar_of T.denotes result ≡ spec.nothing_grown }
    {
        Grown {
            count: 0,
            groups: Seq::new(alloc),
            values: Seq::new(alloc),
        }
    }
}

/// Whether the group is that of the nonterminal.
fn is_group_of(env: &Environment<'_>, named: &Named, parts: &Grouped<'_>) -> bool
    ensures { result ≡ spec.is_group_of (environment_of env.now) named.now (grouped_of parts.now) }
{
    is_symbol(parts.name, named.name.as_slice()) && has_sort(env, named.sort, parts.sort)
}

/// The nonterminals with one more, whose rules these are.
fn extended<T: Theory>(
    alloc: Global,
    env: &Environment<'_>,
    sort: Sort,
    items: &Sexps,
    grown: Grown<T>,
) -> Result<Grown<T>, ReadEnd>
    requires { Serves T.numeric env.now.logic }
    ensures { ReadingGives (grown_grammar_of T.denotes) result
        (spec.grammar_extended (environment_of env.now) sort items.now (grown_grammar_of T.denotes grown)) }
{
    let Grown {
        count,
        mut groups,
        values,
    } = grown;
    let before = Collected {
        count,
        rules: Seq::new(alloc),
        values,
    };
    let Collected {
        count,
        rules,
        values,
    } = read_rules(alloc, env, sort, before, items)?;
    groups.push(Group { sort, rules })?;
    Ok(Grown {
        count,
        groups,
        values,
    })
}

/// The nonterminals with this one, whose group the item is.
#[tactic(auto, unfolding(crate::specs::Grammars::read_group))]
fn read_group<T: Theory>(
    alloc: Global,
    env: &Environment<'_>,
    named: &Named,
    item: &Sexp,
    grown: Grown<T>,
) -> Result<Grown<T>, ReadEnd>
    requires { Serves T.numeric env.now.logic }
    ensures { ReadingGives (grown_grammar_of T.denotes) result
        (spec.read_group (environment_of env.now) named.now (item_of item.now) (grown_grammar_of T.denotes grown)) }
{
    let Some(parts) = group_parts(item) else {
        return Err(ReadEnd::Refused(place_of(item), Cause::Shape));
    };
    if !is_group_of(env, named, &parts) {
        return Err(ReadEnd::Refused(place_of(item), Cause::Predeclared));
    }
    extended(alloc, env, named.sort, parts.rules, grown)
}

/// The nonterminals with their groups, in order, as long as there are both. The first fault is told with its place: for
/// each group `Shape` at it where it isn't `(N s (g g))` with a symbol and one rule or more, `Predeclared` at it where
/// its name or its sort isn't the nonterminal's, and then the faults of its rules.
pub fn read_groups<T: Theory>(
    alloc: Global,
    env: &Environment<'_>,
    groups: &Sexps,
) -> Result<Grown<T>, ReadEnd>
    requires { Serves T.numeric env.now.logic }
    ensures { ReadingGives (grown_grammar_of T.denotes) result
        (spec.read_groups (environment_of env.now) env.now.nonterminals.now groups.now spec.nothing_grown) }
{
    let mut grown = Grown::new(alloc);
    let mut left = Rest::all(groups);
    for named in env.nonterminals {
        let Some((group, rest)) = left.split() else {
            return Ok(grown);
        };
        grown = read_group(alloc, env, named, group, grown)?;
        left = rest;
    }
    Ok(grown)
}
