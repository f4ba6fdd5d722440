// The default grammars of LIA.
ghost use Rattle.std.specs.Prelude.{◌≡◌, map, IfOk};
ghost use Rattle.sy_grammar_base.specs.Grown.{production_of, nonterminal_of};
ghost use Rattle.sy_grammar.specs.Defaults as spec;

use crate::defaults_rules::{leaves, push_applied, push_connectives};
use std::alloc::Global;
use sy_grammar_base::{Non, Rule};
use sy_terms::{Op, Seq, Sort, Theory, Want};

/// The nonterminals for a function whose value has this sort.
pub fn integer_nons<T: Theory>(alloc: Global, sort: Sort) -> Result<Seq<Non<T>>, Want>
    ensures { IfOk result (λ nons. map (nonterminal_of T.denotes) nons ≡ spec.of_integers sort) }
{
    let mut nons = Seq::new(alloc);
    match sort {
        Sort::Bool => {
            nons.push(tests(alloc, 1, 0)?)?;
            nons.push(integers(alloc, 1, 0, 2)?)?;
        }
        Sort::Int | Sort::Bits(_) => {
            nons.push(integers(alloc, 0, 1, 2)?)?;
            nons.push(tests(alloc, 0, 1)?)?;
        }
    }
    nons.push(constants(alloc)?)?;
    Ok(nons)
}

/// The nonterminal for integers, by the numbers of those for integers, truth values and constants.
fn integers<T: Theory>(alloc: Global, i: u32, b: u32, k: u32) -> Result<Non<T>, Want>
    ensures { IfOk result (λ non. nonterminal_of T.denotes non ≡ spec.integers i b k) }
{
    let mut rules = leaves(alloc, Sort::Int)?;
    push_applied(alloc, &mut rules, Op::Add, &[i, i])?;
    push_applied(alloc, &mut rules, Op::Sub, &[i, i])?;
    push_applied(alloc, &mut rules, Op::Mul, &[k, i])?;
    push_applied(alloc, &mut rules, Op::Ite, &[b, i, i])?;
    Ok(Non {
        sort: Sort::Int,
        rules,
    })
}

/// The nonterminal for truth values, by the numbers of those for integers and truth values.
fn tests<T: Theory>(alloc: Global, i: u32, b: u32) -> Result<Non<T>, Want>
    ensures { IfOk result (λ non. nonterminal_of T.denotes non ≡ spec.tests i b) }
{
    let mut rules = leaves(alloc, Sort::Bool)?;
    push_applied(alloc, &mut rules, Op::Le, &[i, i])?;
    push_applied(alloc, &mut rules, Op::Equal, &[i, i])?;
    push_connectives(alloc, &mut rules, b)?;
    Ok(Non {
        sort: Sort::Bool,
        rules,
    })
}

/// The nonterminal for integer constants.
fn constants<T: Theory>(alloc: Global) -> Result<Non<T>, Want>
    ensures { IfOk result (λ non. nonterminal_of T.denotes non ≡ spec.factors_alone) }
{
    let mut rules = Seq::new(alloc);
    rules.push(Rule::AnyConstant(Sort::Int))?;
    Ok(Non {
        sort: Sort::Int,
        rules,
    })
}
