// The default grammars of BV.
ghost use Rattle.std.specs.Prelude.{◌≡◌, ◌+◌, ◌<◌, ◌≤◌, [], ◌++◌, ◌∷◌, length, map, IfOk, OnOk};
ghost use Rattle.std.specs.List.{range_with_len};
ghost use Rattle.sy_grammar_base.specs.Grown.{production_of, nonterminal_of};
ghost use Rattle.sy_terms.specs.declared.sort.Sort.TheVariants as variants;
ghost use Rattle.sy_grammar.specs.Defaults as spec;

use crate::defaults_rules::{leaves, push_applied, push_connectives};
use std::alloc::Global;
use sy_grammar_base::{Non, Rule};
use sy_terms::{Op, Seq, Sort, Theory, Want};

/// The nonterminals for a function whose value has this sort, where its arguments and value have vectors of these
/// widths.
pub fn vector_nons<T: Theory>(alloc: Global, sort: Sort, widths: &[u8]) -> Result<Seq<Non<T>>, Want>
    requires { length widths.now ≤ 65 }
    ensures { IfOk result (λ nons. map (nonterminal_of T.denotes) nons ≡ spec.of_vectors sort widths.now) }
{
    let mut nons = Seq::new(alloc);
    let count = widths.len() as u32;
    match sort {
        Sort::Bits(_) => {
            push_vectors(alloc, &mut nons, 0, count, widths)?;
            nons.push(truths(alloc, 0, count, count)?)?;
        }
        Sort::Bool | Sort::Int => {
            nons.push(truths(alloc, 1, count, 0)?)?;
            push_vectors(alloc, &mut nons, 1, 0, widths)?;
        }
    }
    Ok(nons)
}

/// Appends nonterminals for these widths, numbered from `first` on.
fn push_vectors<T: Theory>(
    alloc: Global,
    nons: &mut Seq<Non<T>>,
    first: u32,
    b: u32,
    widths: &[u8],
) -> Result<(), Want>
    requires few { length widths.now ≤ 65 }
    requires low { first ≤ 1 }
    ensures { OnOk result (map (nonterminal_of T.denotes) nons.new ≡
        map (nonterminal_of T.denotes) nons.old ++ spec.vectors_from first b widths.now) }
{
    let mut v = first;
    for width in widths {
        nons.push(vectors(alloc, *width, v, b)?)?;
        v += 1;
    }
    Ok(())
}

/// The nonterminal for vectors of a width, by the numbers of those for them and for truth values.
fn vectors<T: Theory>(alloc: Global, width: u8, v: u32, b: u32) -> Result<Non<T>, Want>
    ensures { IfOk result (λ non. nonterminal_of T.denotes non ≡
        record { sort = variants.Bits width; rules = spec.vector_rules width v b }) }
{
    let sort = Sort::Bits(width);
    let mut rules = leaves(alloc, sort)?;
    push_applied(alloc, &mut rules, Op::BvNot, &[v])?;
    push_applied(alloc, &mut rules, Op::BvNeg, &[v])?;
    push_operators(alloc, &mut rules, v)?;
    push_applied(alloc, &mut rules, Op::Ite, &[b, v, v])?;
    Ok(Non { sort, rules })
}

/// Appends the operators of two vectors of one width.
fn push_operators<T: Theory>(alloc: Global, rules: &mut Seq<Rule<T>>, v: u32) -> Result<(), Want>
    ensures { OnOk result (map (production_of T.denotes) rules.new ≡ map (production_of T.denotes) rules.old ++
        map (λ operator. spec.rule_of_two operator v) spec.default_vector_operators) }
{
    push_applied(alloc, rules, Op::BvAnd, &[v, v])?;
    push_applied(alloc, rules, Op::BvOr, &[v, v])?;
    push_applied(alloc, rules, Op::BvXor, &[v, v])?;
    push_applied(alloc, rules, Op::BvAdd, &[v, v])?;
    push_applied(alloc, rules, Op::BvSub, &[v, v])?;
    push_applied(alloc, rules, Op::BvMul, &[v, v])?;
    push_applied(alloc, rules, Op::BvUdiv, &[v, v])?;
    push_applied(alloc, rules, Op::BvUrem, &[v, v])?;
    push_applied(alloc, rules, Op::BvShl, &[v, v])?;
    push_applied(alloc, rules, Op::BvLshr, &[v, v])?;
    push_applied(alloc, rules, Op::BvAshr, &[v, v])?;
    Ok(())
}

/// The nonterminal for truth values, by its own number, and those for vectors, of which there are `count` from `first`
/// on.
fn truths<T: Theory>(alloc: Global, first: u32, count: u32, b: u32) -> Result<Non<T>, Want>
    requires few { count ≤ 65 }
    requires low { first ≤ 1 }
    ensures { IfOk result (λ non. nonterminal_of T.denotes non ≡ spec.vector_truths (range_with_len first count) b) }
{
    let mut rules = leaves(alloc, Sort::Bool)?;
    for v in first..first + count {
        push_comparisons(alloc, &mut rules, v)?;
    }
    push_connectives(alloc, &mut rules, b)?;
    Ok(Non {
        sort: Sort::Bool,
        rules,
    })
}

/// Appends the comparisons of vectors.
fn push_comparisons<T: Theory>(alloc: Global, rules: &mut Seq<Rule<T>>, v: u32) -> Result<(), Want>
    ensures { OnOk result (map (production_of T.denotes) rules.new ≡
        map (production_of T.denotes) rules.old ++ spec.comparisons (v ∷ [])) }
{
    push_applied(alloc, rules, Op::Equal, &[v, v])?;
    push_applied(alloc, rules, Op::BvUlt, &[v, v])?;
    push_applied(alloc, rules, Op::BvSlt, &[v, v])?;
    Ok(())
}
