// Nonterminals that were read, as nonterminals of grammars.
ghost use Rattle.std.specs.Prelude.{◌≡◌, IfOk, map};
ghost use Rattle.sy_grammar_base.specs.Grown.{nonterminal_of, production_of};
ghost use Rattle.sy_forms_items.specs.Rulings.{ruling_of};
ghost use Rattle.sy_forms_items.specs.Productions.{production_at};
ghost use Rattle.sy_scope_names.specs.Groups.{group_of, production_in};

use std::alloc::Global;
use sy_forms_items::Ruling;
use sy_grammar_base::{Non, Rule};
use sy_seq::{Seq, Want};
use sy_terms::{Sort, Theory};

/// A nonterminal: the sort of what it derives, and its rules as they are read.
#[derive(Drop)]
pub struct Group<T: Theory> {
    pub sort: Sort,
    pub rules: Seq<Ruling<T>>,
}

/// The rule of a grammar.
fn rule_of<T: Theory>(alloc: Global, ruling: &Ruling<T>) -> Result<Rule<T>, Want>
    ensures { IfOk result (λ rule. production_of T.denotes rule ≡ production_in T.denotes ruling.now) }
{
    match ruling {
        Ruling::Template(phrase) => {
            let part = phrase.part(alloc)?;
            Ok(Rule::Term(part))
        }
        Ruling::EachConstant(sort) => Ok(Rule::AnyConstant(*sort)),
        Ruling::EachVariable(sort) => Ok(Rule::AnyVariable(*sort)),
    }
}

/// The rules of a grammar, in order.
fn rules_of<T: Theory>(alloc: Global, rulings: &[Ruling<T>]) -> Result<Seq<Rule<T>>, Want>
    ensures { IfOk result (λ rules. map (production_of T.denotes) rules ≡ map (production_in T.denotes) rulings.now) }
{
    let mut rules = Seq::new(alloc);
    for ruling in rulings {
        rules.push(rule_of(alloc, ruling)?)?;
    }
    Ok(rules)
}

/// The nonterminals of a grammar, in order.
pub fn nonterminals<T: Theory>(alloc: Global, groups: &[Group<T>]) -> Result<Seq<Non<T>>, Want>
    ensures { IfOk result (λ nons. map (nonterminal_of T.denotes) nons ≡ map (group_of T.denotes) groups.now) }
{
    let mut nons = Seq::new(alloc);
    for group in groups {
        let rules = rules_of(alloc, group.rules.as_slice())?;
        nons.push(Non {
            sort: group.sort,
            rules,
        })?;
    }
    Ok(nons)
}
