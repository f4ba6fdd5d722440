// Rules of operators and nonterminals.
ghost use Rattle.std.specs.Prelude.{◌≡◌, [], ◌++◌, ◌∷◌, map, OnOk, IfOk};
ghost use Rattle.sy_grammar_base.specs.Grown.{production_of};
ghost use Rattle.sy_grammar.specs.Occurrences.{occurrence};
ghost use Rattle.sy_grammar_base.specs.Trees as trees;
ghost use Rattle.sy_grammar.specs.Defaults as spec;

use std::alloc::Global;
use sy_grammar_base::{Part, Parts, Rule};
use sy_terms::{Op, Seq, Sort, Theory, Want};

/// Occurrences of these nonterminals.
fn places<T: Theory>(alloc: Global, nonterminals: &[u32]) -> Result<Parts<T>, Want>
    ensures { IfOk result (λ parts. parts.items.items ≡ map occurrence nonterminals.now) }
{
    let mut parts = Parts::new(alloc);
    for nonterminal in nonterminals {
        parts.push(Part::Non(*nonterminal))?;
    }
    Ok(parts)
}

/// Appends the rule of the operator at these nonterminals.
pub fn push_applied<T: Theory>(
    alloc: Global,
    rules: &mut Seq<Rule<T>>,
    operator: Op,
    nonterminals: &[u32],
) -> Result<(), Want>
    ensures { OnOk result (map (production_of T.denotes) rules.new ≡
        map (production_of T.denotes) rules.old ++ spec.rule_applied operator nonterminals.now ∷ []) }
{
    let parts = places(alloc, nonterminals)?;
    rules.push(Rule::Term(Part::App(operator, parts)))?;
    Ok(())
}

/// The rules for every argument and every constant of the sort.
pub fn leaves<T: Theory>(alloc: Global, sort: Sort) -> Result<Seq<Rule<T>>, Want>
    ensures { IfOk result (λ rules. map (production_of T.denotes) rules ≡
        trees.EachVariable sort ∷ trees.EachConstant sort ∷ []) }
{
    let mut rules = Seq::new(alloc);
    rules.push(Rule::AnyVariable(sort))?;
    rules.push(Rule::AnyConstant(sort))?;
    Ok(rules)
}

/// Appends `not`, `and`, `or` and `ite` of the nonterminal.
pub fn push_connectives<T: Theory>(
    alloc: Global,
    rules: &mut Seq<Rule<T>>,
    b: u32,
) -> Result<(), Want>
    ensures { OnOk result (map (production_of T.denotes) rules.new ≡
        map (production_of T.denotes) rules.old ++ spec.connectives b) }
{
    push_applied(alloc, rules, Op::Not, &[b])?;
    push_applied(alloc, rules, Op::And, &[b, b])?;
    push_applied(alloc, rules, Op::Or, &[b, b])?;
    push_applied(alloc, rules, Op::Ite, &[b, b, b])?;
    Ok(())
}
