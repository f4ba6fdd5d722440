// The rule by which a grammar chooses between two terms.
ghost use Rattle.std.specs.Prelude.{◌≡◌, ◌<◌, ◌^◌, length, map, All, MatchOption, false};
ghost use Rattle.sy_grammar_base.specs.Trees as trees;
ghost use Rattle.sy_grammar_base.specs.Trees.{IsFirst, IsNumbered, start_rules, Template};
ghost use Rattle.sy_grammar_base.specs.Written.{pattern_of, patterns_of};
ghost use Rattle.sy_grammar_base.specs.Grown.{syntax_from, production_of};

use sy_grammar_base::{Grammar, Part, Parts, Rule};
use sy_terms::{Op, Theory};

/// The number of the first rule by which the start symbol chooses between two of its own terms, an `ite` whose
/// condition is a nonterminal; `None` exactly where it has no such rule.
pub fn tree_rule<T: Theory>(g: &Grammar<T>) -> Option<u32>
    requires numbered { IsNumbered (syntax_from T.denotes g.now) }
    ensures { MatchOption result
        (All (λ rule. trees.is_choice rule ≡ false) (start_rules (syntax_from T.denotes g.now).nonterminals))
        (λ place. IsFirst trees.is_choice (start_rules (syntax_from T.denotes g.now).nonterminals) place) }
{
    match g.nons().get(0) {
        Some(start) => first_choice(start.rules.as_slice()),
        None => None,
    }
}

/// The first of the rules that is such a choice; `None` exactly where there is none.
fn first_choice<T: Theory>(rules: &[Rule<T>]) -> Option<u32>
    requires { length rules.now < 2 ^ 31 }
    ensures { MatchOption result
        (All (λ rule. trees.is_choice rule ≡ false) (map (production_of T.denotes) rules.now))
        (λ place. IsFirst trees.is_choice (map (production_of T.denotes) rules.now) place) }
{
    for (place, rule) in rules.iter().enumerate() {
        if is_choice(rule) {
            return Some(place as u32);
        }
    }
    None
}

/// Whether the rule is `(ite C S S)` with the start symbol S.
fn is_choice<T: Theory>(rule: &Rule<T>) -> bool
    ensures { result ≡ trees.is_choice (production_of T.denotes rule.now) }
{
    match rule {
        Rule::Term(part) => chooses(part),
        Rule::AnyConstant(_) => false,
        Rule::AnyVariable(_) => false,
    }
}

fn chooses<T: Theory>(part: &Part<T>) -> bool
    ensures { result ≡ trees.is_choice (Template (pattern_of T.denotes part.now)) }
{
    match part {
        Part::App(operator, parts) => operator.equals(&Op::Ite) && are_choices(parts),
        Part::Const(_) => false,
        Part::Var(_) => false,
        Part::Non(_) => false,
        Part::Call(_, _) => false,
    }
}

/// Whether these are a nonterminal and twice the start symbol.
fn are_choices<T: Theory>(parts: &Parts<T>) -> bool
    ensures { result ≡ trees.are_choices (patterns_of T.denotes parts.now.items.items) }
{
    if parts.len() != 3 {
        return false;
    }
    let parts = parts.as_slice();
    is_place(&parts[0]) && (is_start(&parts[1]) && is_start(&parts[2]))
}

fn is_place<T: Theory>(part: &Part<T>) -> bool
    ensures { result ≡ trees.is_place (pattern_of T.denotes part.now) }
{
    match part {
        Part::Non(_) => true,
        Part::Const(_) => false,
        Part::Var(_) => false,
        Part::App(_, _) => false,
        Part::Call(_, _) => false,
    }
}

fn is_start<T: Theory>(part: &Part<T>) -> bool
    ensures { result ≡ trees.is_start (pattern_of T.denotes part.now) }
{
    match part {
        Part::Non(nonterminal) => *nonterminal == 0,
        Part::Const(_) => false,
        Part::Var(_) => false,
        Part::App(_, _) => false,
        Part::Call(_, _) => false,
    }
}
