// What derives each subterm of a term.
ghost use Rattle.std.specs.Prelude.{◌≡◌, ◌↔◌, IsTrue, length, MatchOption, IfOk, Some, None, slice_get};
ghost use Rattle.sy_terms.specs.Denoted.{expr_of, exprs_of};
ghost use Rattle.sy_grammar_base.specs.Trees.{IsNumbered};
ghost use Rattle.sy_grammar_base.specs.Grown.{syntax_from};
ghost use Rattle.sy_grammar.specs.Noted.{note_of, notes_of};
ghost use Rattle.sy_grammar.specs.Steps.{AreInOrder, step_trees};
ghost use Rattle.sy_grammar.specs.Rows.{IsBlank, RowIsClosed, IsMade, IsRowOfSteps, IsNoted, AreNoted, NotesAreRight, arguments_of};

use crate::note::Note;
use crate::rules::first_step;
use crate::step::Step;
use std::alloc::{AllocError, Global};
use sy_grammar_base::Grammar;
use sy_terms::{Term, Terms, Theory};

/// A nonterminal that has no step yet, with a step that derives the term from it; `None` exactly where there is none.
fn next_step<T: Theory>(
    alloc: Global,
    grammar: &Grammar<T>,
    term: &Term<T>,
    row: &[Option<usize>],
    below: &[Note],
) -> Result<Option<(usize, Step<T>)>, AllocError>
    requires numbered { IsNumbered (syntax_from T.denotes grammar.now) }
    requires sized { length row.now ≡ length grammar.now.nons }
    ensures { IfOk result (λ found. MatchOption found
        (RowIsClosed (syntax_from T.denotes grammar.now) (expr_of T.denotes term.now) row.now (notes_of below.now))
        (λ pair. (slice_get row.now pair.0 ≡ Some None) × IsMade T.denotes
        (syntax_from T.denotes grammar.now) pair.0 (expr_of T.denotes term.now) row.now (notes_of below.now) pair.1)) }
{
    let arguments = grammar.args().as_slice();
    for (nonterminal, item) in grammar.nons().as_slice().iter().enumerate() {
        if !lacks(row, nonterminal) {
            continue;
        }
        let made = first_step(alloc, arguments, item.rules.as_slice(), term, row, below)?;
        if let Some(step) = made {
            return Ok(Some((nonterminal, step)));
        }
    }
    Ok(None)
}

/// Whether the row has no step for the nonterminal yet.
fn lacks(row: &[Option<usize>], nonterminal: usize) -> bool
    ensures { IsTrue result ↔ slice_get row.now nonterminal ≡ Some None }
{
    match row.get(nonterminal) {
        Some(Some(_)) => false,
        Some(None) => true,
        None => false,
    }
}

/// A row without steps.
fn blank_row(alloc: Global, nonterminals: usize) -> Result<Vec<Option<usize>>, AllocError>
    ensures sized { IfOk result (λ row. length row.items ≡ nonterminals) }
    ensures blank { IfOk result (λ row. IsBlank row.items) }
{
    let mut row = Vec::new(alloc);
    while row.len() < nonterminals {
        row.push(None)?;
    }
    Ok(row)
}

/// Per nonterminal a step that derives the term from it, where there is one, over the notes of its arguments.
fn row_of<T: Theory>(
    alloc: Global,
    grammar: &Grammar<T>,
    term: &Term<T>,
    below: &[Note],
    steps: &mut Vec<Step<T>>,
) -> Result<Vec<Option<usize>>, AllocError>
    requires numbered { IsNumbered (syntax_from T.denotes grammar.now) }
    requires ordered { AreInOrder steps.old.items }
    requires right { NotesAreRight (syntax_from T.denotes grammar.now)
        (step_trees T.denotes steps.old.items) (arguments_of (expr_of T.denotes term.now)) (notes_of below.now) }
    ensures { IfOk result (λ row. IsRowOfSteps T.denotes (syntax_from T.denotes grammar.now)
        (expr_of T.denotes term.now) row.items (notes_of below.now) steps.old.items steps.new.items) }
{
    let mut row = blank_row(alloc, grammar.nons().len())?;
    while let Some((nonterminal, step)) = next_step(alloc, grammar, term, row.as_slice(), below)? {
        row[nonterminal] = Some(steps.len());
        steps.push(step)?;
    }
    Ok(row)
}

/// The note of a term over the notes of its arguments.
fn note_above<T: Theory>(
    alloc: Global,
    grammar: &Grammar<T>,
    term: &Term<T>,
    below: Vec<Note>,
    steps: &mut Vec<Step<T>>,
) -> Result<Note, AllocError>
    requires numbered { IsNumbered (syntax_from T.denotes grammar.now) }
    requires ordered { AreInOrder steps.old.items }
    requires right { NotesAreRight (syntax_from T.denotes grammar.now)
        (step_trees T.denotes steps.old.items) (arguments_of (expr_of T.denotes term.now)) (notes_of below.items) }
    ensures { IfOk result (λ note. IsNoted T.denotes (syntax_from T.denotes grammar.now)
        (expr_of T.denotes term.now) (note_of note) steps.old.items steps.new.items) }
{
    let row = row_of(alloc, grammar, term, below.as_slice(), steps)?;
    Ok(Note::new(row, below))
}

/// The note of a term, with those of its subterms. The steps grow by those that the notes have.
#[cycle(note)]
pub fn note<T: Theory>(
    alloc: Global,
    grammar: &Grammar<T>,
    term: &Term<T>,
    steps: &mut Vec<Step<T>>,
) -> Result<Note, AllocError>
    requires numbered { IsNumbered (syntax_from T.denotes grammar.now) }
    requires ordered { AreInOrder steps.old.items }
    ensures { IfOk result (λ note. IsNoted T.denotes (syntax_from T.denotes grammar.now)
        (expr_of T.denotes term.now) (note_of note) steps.old.items steps.new.items) }
{
    let below = match term {
        Term::App(_, arguments) => notes(alloc, grammar, arguments, steps)?,
        Term::Call(_, arguments) => notes(alloc, grammar, arguments, steps)?,
        Term::Const(_) => Vec::new(alloc),
        Term::Var(_) => Vec::new(alloc),
        Term::Let(_, _) => Vec::new(alloc),
    };
    let note = note_above(alloc, grammar, term, below, steps)?;
    Ok(note)
}

/// The same for each of these terms.
#[cycle(note)]
fn notes<T: Theory>(
    alloc: Global,
    grammar: &Grammar<T>,
    terms: &Terms<T>,
    steps: &mut Vec<Step<T>>,
) -> Result<Vec<Note>, AllocError>
    requires numbered { IsNumbered (syntax_from T.denotes grammar.now) }
    requires ordered { AreInOrder steps.old.items }
    ensures { IfOk result (λ notes. AreNoted T.denotes (syntax_from T.denotes grammar.now)
        (exprs_of T.denotes terms.now.items.items) (notes_of notes.items) steps.old.items steps.new.items) }
{
    let mut notes = Vec::new(alloc);
    for term in terms.as_slice() {
        let next = note(alloc, grammar, term, steps)?;
        notes.push(next)?;
    }
    Ok(notes)
}
