// Names as terms, and heads of lists.
ghost use Rattle.std.specs.Prelude.{◌≡◌};
ghost use Rattle.std.specs.Option.{option_map};
ghost use Rattle.sy_text_items.specs.Views.{item_of};
ghost use Rattle.sy_forms_items.specs.Meant.{typed_of};
ghost use Rattle.sy_forms_items.specs.Readings.{ReadingGives};
ghost use Rattle.sy_forms_items.specs.Seen.{environment_of, sense_in};
ghost use Rattle.sy_forms.specs.Heads.{head_in};
ghost use Rattle.sy_terms.specs.Logics.{Serves};
ghost use Rattle.sy_forms.specs.Terms as spec;
ghost use Rattle.sy_forms_items.specs.Operators as operators;
ghost use Rattle.sy_forms_items.specs.Views.{indexed_of, items_in};

use crate::literal::{numeral_term, vector_term};
use std::alloc::Global;
use sy_forms_items::{
    Environment, Indices, Locals, Phrases, ReadEnd, Rest, Sense, Typed, are_small, indexed_name,
    indexed_operator, invocation, is, is_indexed, is_symbol, literal, local, nonterminal,
    operator_named, position, sense_of, symbol_in,
};
use sy_scope_causes::Cause;
use sy_terms::{Fun, Logic, Op, Sort, Theory, Value};
use sy_text_items::{Atom, Name, Place, Sexp};

/// A name that stands for nothing that is declared.
fn undeclared_term<T: Theory>(logic: Logic, place: Place, name: &[u8]) -> Result<Typed<T>, ReadEnd>
    ensures { ReadingGives (typed_of T.denotes) result (spec.undeclared_term logic place name.now) }
{
    if is(name, b"true") {
        return Ok(literal(Value::Truth(true), Sort::Bool));
    }
    if is(name, b"false") {
        return Ok(literal(Value::Truth(false), Sort::Bool));
    }
    match operator_named(logic, name) {
        Some(_) => Err(ReadEnd::Refused(place, Cause::SortMismatch)),
        None => Err(ReadEnd::Refused(place, Cause::UnknownName)),
    }
}

/// A function that stands alone, which has no arguments.
fn alone<T: Theory>(
    alloc: Global,
    place: Place,
    function: Fun,
    takes: &[Sort],
    gives: Sort,
) -> Result<Typed<T>, ReadEnd>
    ensures { ReadingGives (typed_of T.denotes) result (spec.alone place function takes.now gives) }
{
    match takes {
        [] => Ok(invocation(function, Phrases::new(alloc), gives)),
        _ => Err(ReadEnd::Refused(place, Cause::SortMismatch)),
    }
}

/// A name that stands for this.
fn name_term<T: Theory>(
    alloc: Global,
    logic: Logic,
    place: Place,
    name: &[u8],
    sense: Option<Sense<'_>>,
) -> Result<Typed<T>, ReadEnd>
    ensures { ReadingGives (typed_of T.denotes) result
        (spec.name_term logic place name.now (option_map sense_in sense.entry)) }
{
    match sense {
        Some(Sense::Local(level, sort)) => Ok(local(level, sort)),
        Some(Sense::Nonterminal(number, sort)) => Ok(nonterminal(number, sort)),
        Some(Sense::Argument(at, sort)) => Ok(position(at, sort)),
        Some(Sense::Variable(at, sort)) => Ok(position(at, sort)),
        Some(Sense::Function(function, takes, gives)) => {
            alone(alloc, place, function, takes, gives)
        }
        Some(Sense::Withheld) => Err(ReadEnd::Refused(place, Cause::FunctionNotHere)),
        None => undeclared_term(logic, place, name),
    }
}

/// An atom: a name, a numeral or a vector literal.
#[tactic(auto, unfolding(crate::specs::Terms::atom_term))]
pub(crate) fn atom_term<T: Theory>(
    alloc: Global,
    env: &Environment<'_>,
    locals: &Locals,
    place: Place,
    atom: &Atom,
) -> Result<Typed<T>, ReadEnd>
    requires { Serves T.numeric env.now.logic }
    ensures { ReadingGives (typed_of T.denotes) result
        (spec.atom_term (environment_of env.now) locals.now place atom.now) }
{
    match atom {
        Atom::Symbol(name) => {
            let sense = sense_of(env, locals, name.as_slice())?;
            let term = name_term(alloc, env.logic, place, name.as_slice(), sense)?;
            Ok(term)
        }
        Atom::Numeral(n) => numeral_term(env.logic, place, *n),
        Atom::Bits(width, n) => vector_term(env.logic, place, *width, *n),
        Atom::Keyword(_) => Err(ReadEnd::Refused(place, Cause::Shape)),
        Atom::Decimal(_) => Err(ReadEnd::Refused(place, Cause::Shape)),
        Atom::Text(_) => Err(ReadEnd::Refused(place, Cause::Shape)),
    }
}

/// The head of a list: an operator, or a function with the sorts of its arguments and of its value.
#[derive(Clone, Copy)]
pub(crate) enum Head<'a> {
    Operator(Op),
    Function(Fun, &'a [Sort], Sort),
}

/// A name that stands for this, as a head.
fn name_head<'a>(
    logic: Logic,
    place: Place,
    name: &[u8],
    sense: Option<Sense<'a>>,
) -> Result<Head<'a>, ReadEnd>
    ensures { ReadingGives head_in result (spec.name_head logic place name.now (option_map sense_in sense.entry)) }
{
    match sense {
        Some(Sense::Local(_, _)) => Err(ReadEnd::Refused(place, Cause::SortMismatch)),
        Some(Sense::Nonterminal(_, _)) => Err(ReadEnd::Refused(place, Cause::SortMismatch)),
        Some(Sense::Argument(_, _)) => Err(ReadEnd::Refused(place, Cause::SortMismatch)),
        Some(Sense::Variable(_, _)) => Err(ReadEnd::Refused(place, Cause::SortMismatch)),
        Some(Sense::Function(function, takes, gives)) => Ok(Head::Function(function, takes, gives)),
        Some(Sense::Withheld) => Err(ReadEnd::Refused(place, Cause::FunctionNotHere)),
        None => match operator_named(logic, name) {
            Some(operator) => Ok(Head::Operator(operator)),
            None => Err(ReadEnd::Refused(place, Cause::UnknownName)),
        },
    }
}

/// An operator with indices of at most 64.
fn small_head<'a>(place: Place, name: &[u8], indices: Indices) -> Result<Head<'a>, ReadEnd>
    ensures { ReadingGives head_in result
        (spec.small_head place indices (operators.indexed_operator name.now indices)) }
{
    if !is_indexed(name, indices) {
        return Err(ReadEnd::Refused(place, Cause::UnknownName));
    }
    if !are_small(indices) {
        return Err(ReadEnd::Refused(place, Cause::Width));
    }
    match indexed_operator(name, indices) {
        Some(operator) => Ok(Head::Operator(operator)),
        None => Err(ReadEnd::Refused(place, Cause::UnknownName)),
    }
}

/// An indexed operator.
fn indexed_head<'a>(
    logic: Logic,
    place: Place,
    indexed: Option<(&Name, Indices)>,
) -> Result<Head<'a>, ReadEnd>
    ensures { ReadingGives head_in result (spec.indexed_head logic place (option_map indexed_of indexed.entry)) }
{
    let Some((name, indices)) = indexed else {
        return Err(ReadEnd::Refused(place, Cause::Shape));
    };
    match logic {
        Logic::Lia => Err(ReadEnd::Refused(place, Cause::UnknownName)),
        Logic::Bv => small_head(place, name.as_slice(), indices),
    }
}

/// A list as a head.
fn list_head<'a>(logic: Logic, place: Place, items: Rest<'_>) -> Result<Head<'a>, ReadEnd>
    ensures { ReadingGives head_in result (spec.list_head logic place (items_in items.entry)) }
{
    match items.split() {
        Some((first, rest)) if is_symbol(first, b"_") => {
            indexed_head(logic, place, indexed_name(rest))
        }
        _ => Err(ReadEnd::Refused(place, Cause::Shape)),
    }
}

/// What the head of a list is.
#[tactic(auto, unfolding(crate::specs::Terms::read_head))]
pub(crate) fn read_head<'a>(
    env: &Environment<'a>,
    locals: &Locals,
    item: &Sexp,
) -> Result<Head<'a>, ReadEnd>
    ensures { ReadingGives head_in result (spec.read_head (environment_of env.now) locals.now (item_of item.now)) }
{
    match item {
        Sexp::List(items, place) => list_head(env.logic, *place, Rest::all(items)),
        Sexp::Atom(atom, place) => match symbol_in(atom) {
            None => Err(ReadEnd::Refused(*place, Cause::UnknownName)),
            Some(name) => {
                let sense = sense_of(env, locals, name.as_slice())?;
                let head = name_head(env.logic, *place, name.as_slice(), sense)?;
                Ok(head)
            }
        },
    }
}
