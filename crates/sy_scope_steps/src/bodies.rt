// Bodies over named arguments.
ghost use Rattle.std.specs.Prelude.{◌≡◌, map, Ok, IfOk};
ghost use Rattle.sy_text_items.specs.Views.{item_of};
ghost use Rattle.sy_terms.specs.Denoted.{expr_of};
ghost use Rattle.sy_terms.specs.Definitions.{signature, bodies};
ghost use Rattle.sy_terms.specs.Logics.{IsTheoryOf, Serves};
ghost use Rattle.sy_forms_items.specs.declared.names.Role.TheVariants as role;
ghost use Rattle.sy_forms_items.specs.Meant.{phrase_of};
ghost use Rattle.sy_forms_items.specs.Phrases.{expr_at};
ghost use Rattle.sy_forms_items.specs.Readings.{ReadingGives};
ghost use Rattle.sy_scope_steps.specs.Steps.{read_in};
ghost use Rattle.sy_scope_steps.specs.Bodies as spec;
ghost use Rattle.sy_scope_steps.specs.Bodies.{BodyFits, FitsUnder, GivesBody};
ghost use Rattle.sy_scope_steps.specs.BodiesSeen.{context_around};

use crate::surroundings::Surroundings;
use std::alloc::Global;
use sy_forms::read_whole;
use sy_forms_items::{Environment, Named, Phrase, ReadEnd, Role};
use sy_scope_causes::Titles;
use sy_scope_ends::{ScopeEnd, ended};
use sy_terms::{Defs, Logic, Sort, Term, Theory};
use sy_text_items::Sexp;

/// The phrase of the sort that the item is, over these arguments.
fn read_phrase<T: Theory>(
    alloc: Global,
    logic: Logic,
    around: &Surroundings,
    arguments: &[Named],
    sort: Sort,
    item: &Sexp,
) -> Result<Phrase<T>, ReadEnd>
    requires { Serves T.numeric logic }
    ensures { ReadingGives (phrase_of T.denotes) result
        (read_in (context_around around.now) logic role.Body arguments.now sort (item_of item.now)) }
{
    let env = Environment {
        logic,
        role: Role::Body,
        names: &around.names,
        arguments,
        nonterminals: &[],
        constants: &[],
        divisors: &[],
    };
    let phrase = read_whole(alloc, &env, &around.measures, sort, item)?;
    Ok(phrase)
}

/// The term that a phrase is over so many arguments. Only memory can run out.
fn term_of<T: Theory>(alloc: Global, count: usize, phrase: &Phrase<T>) -> Result<Term<T>, ReadEnd>
    ensures { ReadingGives (expr_of T.denotes) result (Ok (expr_at count (phrase_of T.denotes phrase.now))) }
{
    let Ok(outside) = u32::try_from(count) else {
        return Err(ReadEnd::Want);
    };
    let term = phrase.term(alloc, outside)?;
    Ok(term)
}

/// The body of a function that the item is: a term of the sort over these arguments and the definitions around it, read
/// as the body of a `define-fun` is. The first condition that doesn't hold is told with its place: those of the term,
/// with each node before its parts, where a function to be found is `FunctionNotHere`; then at the item `SortMismatch`,
/// and `TooMany` where the unfolded size is above 1,000,000 or the unfolded depth above 1,200. Out of memory is `Want`.
pub fn read_body_in<T: Theory>(
    alloc: Global,
    logic: Logic,
    around: &Surroundings,
    arguments: &[Named],
    sort: Sort,
    item: &Sexp,
) -> Result<Term<T>, ReadEnd>
    requires { IsTheoryOf logic T.owned T.numeric }
    ensures read { ReadingGives (expr_of T.denotes) result
        (spec.body_in (context_around around.now) logic arguments.now sort (item_of item.now)) }
    ensures fits { IfOk result (λ term. FitsUnder T.owned (context_around around.now) arguments.now sort
        (expr_of T.denotes term)) }
{
    let phrase = read_phrase(alloc, logic, around, arguments, sort, item)?;
    let term = term_of(alloc, arguments.len(), &phrase);
    drop(phrase);
    let term = term?;
    Ok(term)
}

/// The body of a function of a problem with these definitions and names, as `read_body_in` reads it. A refusal has
/// command number 0. Out of memory is `Want`.
pub fn read_body<T: Theory>(
    alloc: Global,
    logic: Logic,
    titles: &Titles,
    defs: &Defs<T>,
    arguments: &[Named],
    sort: Sort,
    item: &Sexp,
) -> Result<Term<T>, ScopeEnd>
    requires { IsTheoryOf logic T.owned T.numeric }
    ensures read { GivesBody (expr_of T.denotes) result
        (spec.body_read logic titles.now (map signature defs.now) (bodies T.denotes defs.now) arguments.now sort
        (item_of item.now)) }
    ensures fits { IfOk result (λ term. BodyFits T.owned (map signature defs.now) arguments.now sort
        (expr_of T.denotes term)) }
{
    let around = Surroundings::of(alloc, titles, defs)?;
    match read_body_in(alloc, logic, &around, arguments, sort, item) {
        Ok(term) => Ok(term),
        Err(end) => Err(ended(0, end)),
    }
}
