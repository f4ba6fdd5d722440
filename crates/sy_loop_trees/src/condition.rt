// The nonterminal of the conditions of a grammar's conditional trees.
ghost use Rattle.std.specs.Prelude.{◌≡◌, MatchOption, Some, slice_get};
ghost use Rattle.sy_grammar_base.specs.Grown.{syntax_from, production_of};
ghost use Rattle.sy_grammar_base.specs.Trees.{IsNumbered, Production, start_rules};
ghost use Rattle.sy_grammar_base.specs.Written.{pattern_of};
ghost use Rattle.sy_loop_trees.specs.Conditions.{HasNoTrees, IsConditionOf, first_nonterminal, pattern_nonterminal, tested_by};

use sy_grammar::tree_rule;
use sy_grammar_base::{Grammar, Part, Rule};
use sy_terms::Theory;

/// The nonterminal of the conditions of the grammar's conditional trees: C, where the start symbol's first choice
/// between two terms of the start symbol is by C. `None` exactly where the start symbol has no such rule.
pub fn condition_of<T: Theory>(grammar: &Grammar<T>) -> Option<u32>
    requires numbered { IsNumbered (syntax_from T.denotes grammar.now) }
    ensures { MatchOption result (HasNoTrees (syntax_from T.denotes grammar.now))
        (IsConditionOf (syntax_from T.denotes grammar.now)) }
{
    match tree_rule(grammar) {
        Some(place) => tested_at(grammar, place),
        None => None, // no rule makes trees
    }
}

/// The nonterminal that stands first in this rule of the start symbol, where it is an operator.
fn tested_at<T: Theory>(grammar: &Grammar<T>, place: u32) -> Option<u32>
    ensures { (rule : Production) → slice_get (start_rules (syntax_from T.denotes grammar.now).nonterminals) place ≡
        Some rule → result ≡ tested_by rule }
{
    let start = grammar.nons().get(0)?;
    let rule = start.rules.get(place as usize)?;
    tested(rule)
}

/// The nonterminal that stands first in the rule, where it is an operator.
fn tested<T: Theory>(rule: &Rule<T>) -> Option<u32>
    ensures { result ≡ tested_by (production_of T.denotes rule.now) }
{
    match rule {
        Rule::Term(part) => first_place(part),
        Rule::AnyConstant(_) => None,
        Rule::AnyVariable(_) => None,
    }
}

/// The same of a rule's part.
fn first_place<T: Theory>(part: &Part<T>) -> Option<u32>
    ensures { result ≡ first_nonterminal (pattern_of T.denotes part.now) }
{
    match part {
        Part::App(_, parts) => match parts.get(0) {
            Some(first) => place(first),
            None => None,
        },
        Part::Const(_) => None,
        Part::Var(_) => None,
        Part::Non(_) => None,
        Part::Call(_, _) => None,
    }
}

/// The nonterminal that the part is.
fn place<T: Theory>(part: &Part<T>) -> Option<u32>
    ensures { result ≡ pattern_nonterminal (pattern_of T.denotes part.now) }
{
    match part {
        Part::Non(nonterminal) => Some(*nonterminal),
        Part::Const(_) => None,
        Part::Var(_) => None,
        Part::App(_, _) => None,
        Part::Call(_, _) => None,
    }
}
