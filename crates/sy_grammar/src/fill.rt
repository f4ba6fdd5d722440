// The steps that fill a rule's pattern.
ghost use Rattle.std.specs.Prelude.{◌≡◌, IfOk};
ghost use Rattle.sy_terms.specs.Denoted.{expr_of, exprs_of};
ghost use Rattle.sy_grammar_base.specs.Written.{pattern_of, patterns_of};
ghost use Rattle.sy_grammar.specs.Filled.{Filled, AllFilled, Appends, IsTaken};
ghost use Rattle.sy_grammar.specs.Noted.{notes_of};

use crate::compare::{applied, called, is_constant, is_variable};
use crate::note::Note;
use std::alloc::AllocError;
use sy_grammar_base::{Part, Parts};
use sy_terms::{Term, Terms, Theory};

/// Appends the steps that replace the part's nonterminals so that it becomes the term, and answers whether there
/// are such steps. The row has the term's own steps, and the notes below those of its arguments.
#[cycle(fill)]
pub fn fill<T: Theory>(
    part: &Part<T>,
    term: &Term<T>,
    row: &[Option<usize>],
    below: &[Note],
    steps: &mut Vec<usize>,
) -> Result<bool, AllocError>
    ensures { IfOk result (λ done. Appends (Filled (pattern_of T.denotes part.now)
        (expr_of T.denotes term.now) row.now (notes_of below.now)) steps.old.items steps.new.items done) }
{
    match part {
        Part::Const(value) => Ok(is_constant(term, value)),
        Part::Var(position) => Ok(is_variable(term, *position)),
        Part::Non(nonterminal) => {
            let done = take(row, *nonterminal, steps)?;
            Ok(done)
        }
        Part::App(operator, parts) => match applied(term, operator) {
            Some(terms) => {
                let done = fill_all(parts, terms, below, steps)?;
                Ok(done)
            }
            None => Ok(false),
        },
        Part::Call(definition, parts) => match called(term, *definition) {
            Some(terms) => {
                let done = fill_all(parts, terms, below, steps)?;
                Ok(done)
            }
            None => Ok(false),
        },
    }
}

/// The same for parts, one after the other.
#[cycle(fill)]
fn fill_all<T: Theory>(
    parts: &Parts<T>,
    terms: &Terms<T>,
    below: &[Note],
    steps: &mut Vec<usize>,
) -> Result<bool, AllocError>
    ensures { IfOk result (λ done. Appends (AllFilled (patterns_of T.denotes parts.now.items.items)
        (exprs_of T.denotes terms.now.items.items) (notes_of below.now)) steps.old.items steps.new.items done) }
{
    for (i, part) in parts.as_slice().iter().enumerate() {
        let Some(term) = terms.get(i) else {
            return Ok(false);
        };
        let Some(note) = below.get(i) else {
            return Ok(false);
        };
        let done = fill(part, term, note.row(), note.below(), steps)?;
        if !done {
            return Ok(false);
        }
    }
    Ok(terms.len() <= parts.len())
}

/// Appends the row's step for the nonterminal, and answers whether there is one.
fn take(row: &[Option<usize>], nonterminal: u32, steps: &mut Vec<usize>) -> Result<bool, AllocError>
    ensures { IfOk result (λ done. Appends (IsTaken row.now nonterminal) steps.old.items steps.new.items done) }
{
    match row.get(nonterminal as usize) {
        Some(Some(step)) => {
            steps.push(*step)?;
            Ok(true)
        }
        _ => Ok(false),
    }
}
