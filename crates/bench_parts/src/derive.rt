// A body that is derived from a large grammar: the words are the numbers of nonterminals, of rules for each and of
// nodes of the body. The grammar has cycles of chain rules, and each sum has many derivations. It prints whether the
// body has a derivation, and whether one with a variable that no rule names has.
ghost use Rattle.std.specs.Prelude.{◌<◌};
ghost use Rattle.sy_grammar_base.specs.Trees.{IsNumbered};
ghost use Rattle.sy_grammar_base.specs.Grown.{syntax_from};

use crate::lists::list;
use crate::terms::{NONE, Node, add_term};
use crate::words::{WANT, number};
use std::alloc::Global;
use sy_grammar::{derive, well_formed};
use sy_grammar_base::{Grammar, Non, Part, Parts, Rule};
use sy_meaning_integers::IntTheory;
use sy_terms::{Op, Seq, Sort, Terms, Theory, Value, Want};

/// Appends the rule of a sum of two nonterminals.
fn add_sum_rule(
    alloc: Global,
    first: u32,
    second: u32,
    rules: &mut Seq<Rule<IntTheory>>,
) -> Result<(), Want> {
    let mut parts = Parts::new(alloc);
    parts.push(Part::Non(first))?;
    parts.push(Part::Non(second))?;
    rules.push(Rule::Term(Part::App(Op::Add, parts)))
}

/// Appends a rule of the nonterminal `n`: a leaf, a chain rule, or a sum of two nonterminals.
fn add_rule(
    alloc: Global,
    n: u32,
    number: u32,
    count: u32,
    rules: &mut Seq<Rule<IntTheory>>,
) -> Result<(), Want>
    requires { 0 < count }
{
    let chained = n.wrapping_mul(5).wrapping_add(number) % count;
    match number {
        0 => rules.push(Rule::Term(Part::Var(0))),
        1 => rules.push(Rule::Term(Part::Const(Value::Num(1)))),
        2..=5 => rules.push(Rule::Term(Part::Non(chained))),
        _ => add_sum_rule(alloc, n.wrapping_add(number) % count, chained, rules),
    }
}

/// So many rules of the nonterminal `n`.
fn rules_of(alloc: Global, n: u32, rules: u32, count: u32) -> Result<Seq<Rule<IntTheory>>, Want>
    requires { 0 < count }
{
    let mut all = Seq::new(alloc);
    for number in 0..rules {
        add_rule(alloc, n, number, count, &mut all)?;
    }
    Ok(all)
}

/// So many nonterminals, each with so many rules.
fn nonterminals(alloc: Global, count: u32, rules: u32) -> Result<Seq<Non<IntTheory>>, Want> {
    let mut nons = Seq::new(alloc);
    for n in 0..count {
        let rules = rules_of(alloc, n, rules, count)?;
        nons.push(Non {
            sort: Sort::Int,
            rules,
        })?;
    }
    Ok(nons)
}

/// The sorts of two arguments.
fn arguments(alloc: Global) -> Result<Seq<Sort>, Want> {
    list(alloc, &[Sort::Int, Sort::Int])
}

/// Appends a sum of so many steps, whose last leaf is this variable. Each step adds 1 or the first variable.
fn add_sum(alloc: Global, steps: u32, last: u32, terms: &mut Terms<IntTheory>) -> Result<(), Want> {
    let mut nodes = Vec::new(alloc);
    nodes.push(Node::Var(0))?;
    nodes.push(Node::Number(1))?;
    nodes.push(Node::Var(last))?;
    let mut top = 2;
    for step in 0..steps {
        let leaf = usize::from(step % 3 != 0);
        let over = Node::Over(Op::Add, [leaf, top, NONE]);
        top = nodes.len();
        nodes.push(over)?;
    }
    add_term(alloc, Sort::Int, nodes.as_slice(), top, terms)
}

/// Whether the term at the place has a derivation from the grammar.
fn is_derived(
    alloc: Global,
    grammar: &Grammar<IntTheory>,
    bodies: &Terms<IntTheory>,
    place: usize,
) -> Result<bool, Want>
    requires { IsNumbered (syntax_from ⟦<IntTheory as Theory>⟧.denotes grammar.now) }
{
    let Some(body) = bodies.get(place) else {
        return Ok(false);
    };
    let found = derive(alloc, grammar, 0, body)?;
    let is_derived = found.is_some();
    drop(found);
    Ok(is_derived)
}

/// Whether each of two sums of so many steps has a derivation from the grammar.
fn both_derived(
    alloc: Global,
    grammar: &Grammar<IntTheory>,
    steps: u32,
) -> Result<Option<(bool, bool)>, Want>
    requires { IsNumbered (syntax_from ⟦<IntTheory as Theory>⟧.denotes grammar.now) }
{
    let mut bodies = Terms::new(alloc);
    add_sum(alloc, steps, 0, &mut bodies)?;
    add_sum(alloc, steps, 1, &mut bodies)?;
    let first = is_derived(alloc, grammar, &bodies, 0)?;
    let second = is_derived(alloc, grammar, &bodies, 1)?;
    Ok(Some((first, second)))
}

/// The same of the grammar of these nonterminals; `None` where it isn't well formed.
fn derived(
    alloc: Global,
    args: Seq<Sort>,
    nons: Seq<Non<IntTheory>>,
    steps: u32,
) -> Result<Option<(bool, bool)>, Want> {
    let defs = Seq::new(alloc);
    if !well_formed(&args, &nons, &defs) {
        return Ok(None);
    }
    let grammar = Grammar::new(args, nons, &defs);
    both_derived(alloc, &grammar, steps)
}

/// The same of a grammar of so many nonterminals and rules for each.
fn measured(
    alloc: Global,
    count: u32,
    rules: u32,
    nodes: u32,
) -> Result<Option<(bool, bool)>, Want> {
    let args = arguments(alloc)?;
    let nons = nonterminals(alloc, count, rules)?;
    derived(alloc, args, nons, nodes / 2)
}

/// Derives bodies from the grammar that the words ask for, and prints what was found.
pub(crate) fn run(rt: &HostRuntime, words: &[String]) -> u8 {
    match measured(
        rt.alloc(),
        number(words, 1),
        number(words, 2),
        number(words, 3),
    ) {
        Ok(Some((first, second))) => {
            let _ = println!(rt; "derived: {first}, {second}");
            0
        }
        Ok(None) => {
            let _ = println!(rt; "not well formed");
            0
        }
        Err(_) => WANT,
    }
}
