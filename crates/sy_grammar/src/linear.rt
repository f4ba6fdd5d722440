// Which products vary in at most one factor.
ghost use Rattle.std.specs.Prelude.{◌≡◌, ◌+◌, min, map, slice_get};
ghost use Rattle.std.specs.List.{list_all};
ghost use Rattle.sy_grammar_base.specs.Formed as spec;
ghost use Rattle.sy_grammar_base.specs.Written.{pattern_of, patterns_of};
ghost use Rattle.sy_grammar_base.specs.Grown.{nonterminal_of, production_of};

use sy_grammar_base::{Non, Part, Parts, Rule};
use sy_terms::{Op, Theory};

/// Whether it isn't a product in which two factors vary.
pub fn is_linear<T: Theory>(nons: &[Non<T>], operator: &Op, parts: &Parts<T>) -> bool
    ensures { result ≡ spec.is_linear (map (nonterminal_of T.denotes) nons.now) operator.now
        (patterns_of T.denotes parts.now.items.items) }
{
    if operator.equals(&Op::Mul) {
        varying(nons, parts.as_slice()) <= 1
    } else {
        true
    }
}

/// How many of the parts vary.
fn varying<T: Theory>(nons: &[Non<T>], parts: &[Part<T>]) -> usize
    ensures { result ≡ spec.varying (map (nonterminal_of T.denotes) nons.now) (patterns_of T.denotes parts.now) }
{
    let mut count = 0;
    for part in parts {
        if !is_fixed(nons, part) {
            count += 1;
        }
    }
    count
}

/// Whether the part is a constant, minus one, or a nonterminal whose rules give constants alone.
fn is_fixed<T: Theory>(nons: &[Non<T>], part: &Part<T>) -> bool
    ensures { result ≡ spec.is_fixed (map (nonterminal_of T.denotes) nons.now) (pattern_of T.denotes part.now) }
{
    match part {
        Part::Non(nonterminal) => match nons.get(*nonterminal as usize) {
            Some(non) => all_give_constants(non.rules.as_slice()),
            None => false,
        },
        Part::Const(_) => true,
        Part::Var(_) => false,
        Part::App(operator, parts) => operator.equals(&Op::Neg) && is_one_constant(parts),
        Part::Call(_, _) => false,
    }
}

/// Whether each rule gives constants alone.
fn all_give_constants<T: Theory>(rules: &[Rule<T>]) -> bool
    ensures { result ≡ list_all spec.gives_constants (map (production_of T.denotes) rules.now) }
{
    rules.iter().all(|rule| gives_constants(rule))
}

/// Whether the rule gives constants alone.
fn gives_constants<T: Theory>(rule: &Rule<T>) -> bool
    ensures { result ≡ spec.gives_constants (production_of T.denotes rule.now) }
{
    match rule {
        Rule::Term(part) => is_signed(part),
        Rule::AnyConstant(_) => true,
        Rule::AnyVariable(_) => false,
    }
}

/// Whether the part is a constant, or minus one.
fn is_signed<T: Theory>(part: &Part<T>) -> bool
    ensures { result ≡ spec.is_signed (pattern_of T.denotes part.now) }
{
    match part {
        Part::Const(_) => true,
        Part::App(operator, parts) => operator.equals(&Op::Neg) && is_one_constant(parts),
        Part::Var(_) => false,
        Part::Non(_) => false,
        Part::Call(_, _) => false,
    }
}

/// Whether these are one constant.
fn is_one_constant<T: Theory>(parts: &Parts<T>) -> bool
    ensures { result ≡ spec.is_one_constant (patterns_of T.denotes parts.now.items.items) }
{
    if parts.len() != 1 {
        return false;
    }
    match parts.get(0) {
        Some(part) => is_constant(part),
        None => false,
    }
}

/// Whether the part is a constant.
fn is_constant<T: Theory>(part: &Part<T>) -> bool
    ensures { result ≡ spec.is_constant (pattern_of T.denotes part.now) }
{
    match part {
        Part::Const(_) => true,
        Part::Var(_) => false,
        Part::Non(_) => false,
        Part::App(_, _) => false,
        Part::Call(_, _) => false,
    }
}
