// Terms that parts become.
ghost use Rattle.std.specs.Prelude.{◌≡◌, IfOk, map};
ghost use Rattle.sy_terms.specs.Denoted.{expr_of, exprs_of};
ghost use Rattle.sy_grammar_base.specs.Patterns.{filled, all_filled, first_of};
ghost use Rattle.sy_grammar_base.specs.Written.{pattern_of, patterns_of};

use crate::occurrences::places;
use std::alloc::Global;
use sy_grammar_base::{Part, Parts};
use sy_terms::{Fun, Term, Terms, Theory, Want};

/// The term that the part becomes where these terms stand for its nonterminals, from left to right. A nonterminal for
/// which no term is left becomes argument 0.
#[cycle(filled)]
pub fn filled_part<T: Theory>(
    alloc: Global,
    part: &Part<T>,
    terms: &[Term<T>],
) -> Result<Term<T>, Want>
    ensures { IfOk result (λ term. expr_of T.denotes term ≡
        filled (pattern_of T.denotes part.now) (map (expr_of T.denotes) terms.now)) }
{
    match part {
        Part::Const(value) => Ok(Term::Const(*value)),
        Part::Var(position) => Ok(Term::Var(*position)),
        Part::Non(_) => {
            let term = first_term(alloc, terms)?;
            Ok(term)
        }
        Part::App(operator, parts) => {
            let arguments = filled_parts(alloc, parts, terms)?;
            Ok(Term::App(*operator, arguments))
        }
        Part::Call(definition, parts) => {
            let arguments = filled_parts(alloc, parts, terms)?;
            Ok(Term::Call(Fun::Defined(*definition), arguments))
        }
    }
}

/// The same for parts, one after the other.
#[cycle(filled)]
fn filled_parts<T: Theory>(
    alloc: Global,
    parts: &Parts<T>,
    terms: &[Term<T>],
) -> Result<Terms<T>, Want>
    ensures { IfOk result (λ filled. exprs_of T.denotes filled.items.items ≡
        all_filled (patterns_of T.denotes parts.now.items.items) (map (expr_of T.denotes) terms.now)) }
{
    let mut filled = Terms::with_capacity(alloc, parts.len())?;
    let mut left = terms;
    for part in parts.as_slice() {
        let term = filled_part(alloc, part, left)?;
        filled.push(term)?;
        let (_, rest) = left.split_at(places(part, left.len()));
        left = rest;
    }
    Ok(filled)
}

/// A copy of the first term, argument 0 where there is none.
fn first_term<T: Theory>(alloc: Global, terms: &[Term<T>]) -> Result<Term<T>, Want>
    ensures { IfOk result (λ term. expr_of T.denotes term ≡ first_of (map (expr_of T.denotes) terms.now)) }
{
    match terms.first() {
        Some(term) => {
            let copy = term.copy(alloc)?;
            Ok(copy)
        }
        None => Ok(Term::Var(0)),
    }
}
