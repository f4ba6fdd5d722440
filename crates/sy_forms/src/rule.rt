// Whole terms, and rules of grammars.
ghost use Rattle.std.specs.Prelude.{[]};
ghost use Rattle.sy_text_items.specs.Views.{item_of};
ghost use Rattle.sy_forms_items.specs.Measured.{measures_of};
ghost use Rattle.sy_forms_items.specs.Rulings.{ruling_of};
ghost use Rattle.sy_forms_items.specs.Meant.{phrase_of, typed_of};
ghost use Rattle.sy_forms_items.specs.Readings.{ReadingGives};
ghost use Rattle.sy_forms.specs.Rules as spec;
ghost use Rattle.sy_forms_items.specs.Seen.{environment_of};
ghost use Rattle.sy_terms.specs.Logics.{Serves};
ghost use Rattle.sy_forms.specs.Terms as terms;

use crate::term::read_term;
use std::alloc::Global;
use sy_forms_items::{
    Environment, Locals, Measures, Phrase, ReadEnd, Rest, Ruling, Typed, is_small, place_of,
    read_sort,
};
use sy_forms_linear::item_behind;
use sy_scope_causes::Cause;
use sy_terms::{Sort, Theory, same_sort};
use sy_text_items::{Place, Sexp};

/// The item as a term outside of any `let`.
fn read_outermost<T: Theory>(
    alloc: Global,
    env: &Environment<'_>,
    item: &Sexp,
) -> Result<Typed<T>, ReadEnd>
    requires { Serves T.numeric env.now.logic }
    ensures { ReadingGives (typed_of T.denotes) result
        (terms.read_term (environment_of env.now) [] (item_of item.now)) }
{
    let mut locals = Locals::new(alloc);
    let term = read_term(alloc, env, &mut locals, item)?;
    Ok(term)
}

/// The whole body, constraint or assumption that the item is: a term of the sort, whose unfolded size is at most
/// 1,000,000 and whose unfolded depth is at most 1,200. The first condition that doesn't hold is told with its place:
/// those of the term with each node before its parts, then `SortMismatch` and `TooMany` at the item.
/// `measures` are those of the definitions so far.
pub fn read_whole<T: Theory>(
    alloc: Global,
    env: &Environment<'_>,
    measures: &Measures,
    sort: Sort,
    item: &Sexp,
) -> Result<Phrase<T>, ReadEnd>
    requires { Serves T.numeric env.now.logic }
    ensures { ReadingGives (phrase_of T.denotes) result
        (terms.read_whole (environment_of env.now) (measures_of measures.now) sort (item_of item.now)) }
{
    let term = read_outermost(alloc, env, item)?;
    if !same_sort(&term.sort, &sort) {
        return Err(ReadEnd::Refused(place_of(item), Cause::SortMismatch));
    }
    if !is_small(measures, &term.phrase) {
        return Err(ReadEnd::Refused(place_of(item), Cause::TooMany));
    }
    Ok(term.phrase)
}

/// A term of the nonterminal's sort, as a rule.
fn rule_term<T: Theory>(
    alloc: Global,
    env: &Environment<'_>,
    sort: Sort,
    item: &Sexp,
) -> Result<Ruling<T>, ReadEnd>
    requires { Serves T.numeric env.now.logic }
    ensures { ReadingGives (ruling_of T.denotes) result
        (spec.rule_term (environment_of env.now) sort (item_of item.now)) }
{
    let term = read_outermost(alloc, env, item)?;
    if same_sort(&term.sort, &sort) {
        Ok(Ruling::Template(term.phrase))
    } else {
        Err(ReadEnd::Refused(place_of(item), Cause::SortMismatch))
    }
}

/// The sort of a rule for all of a sort, which is the nonterminal's.
fn sort_for_all(
    env: &Environment<'_>,
    sort: Sort,
    place: Place,
    item: &Sexp,
) -> Result<Sort, ReadEnd>
    ensures { ReadingGives (λ found.
        found) result (spec.sort_for_all (environment_of env.now) sort place (item_of item.now)) }
{
    let found = read_sort(env.logic, env.names, item)?;
    if same_sort(&found, &sort) {
        Ok(found)
    } else {
        Err(ReadEnd::Refused(place, Cause::SortMismatch))
    }
}

/// The rule of a nonterminal of this sort that the item is: `(Constant s)` or `(Variable s)` of the nonterminal's
/// sort, or a grammar term of it. `SortMismatch` comes at the item.
#[tactic(auto, unfolding(crate::specs::Rules::read_rule))]
pub fn read_rule<T: Theory>(
    alloc: Global,
    env: &Environment<'_>,
    sort: Sort,
    item: &Sexp,
) -> Result<Ruling<T>, ReadEnd>
    requires { Serves T.numeric env.now.logic }
    ensures { ReadingGives (ruling_of T.denotes) result
        (spec.read_rule (environment_of env.now) sort (item_of item.now)) }
{
    let Sexp::List(items, place) = item else {
        return rule_term(alloc, env, sort, item);
    };
    if let Some(constants) = item_behind(b"Constant", Rest::all(items)) {
        let found = sort_for_all(env, sort, *place, constants)?;
        return Ok(Ruling::EachConstant(found));
    }
    if let Some(variables) = item_behind(b"Variable", Rest::all(items)) {
        let found = sort_for_all(env, sort, *place, variables)?;
        return Ok(Ruling::EachVariable(found));
    }
    rule_term(alloc, env, sort, item)
}
