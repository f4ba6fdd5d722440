// Terms with their calls replaced by the called bodies.
ghost use Rattle.std.specs.Prelude.{◌≡◌, ◌≤◌, ◌<◌, ◌+◌, ◌++◌, ◌^◌, length, drop, All, Some, IfOk, OnOk, IsErrOf};
ghost use Rattle.sy_terms.specs.Denoted.{expr_of, exprs_of};
ghost use Rattle.sy_terms.specs.Definitions.{DefinitionsFit};
ghost use Rattle.sy_terms.specs.Fitting.{sort_in, sorts_in};
ghost use Rattle.sy_query_base.specs.Weights as spec;
ghost use Rattle.sy_query_base.specs.Weights.{query_scope};
ghost use Rattle.sy_query.specs.Sized.{IsSized};
ghost use Rattle.sy_query.specs.Placing.{
  placed_with,
  all_placed_with,
  FitsOver,
  AllFitOver,
  TermIsBuilt,
  AreBuilt,
  IsBound,
  bound_weight,
  called_with,
  FunctionTakes,
};

use crate::built::Built;
use crate::leaf::{AllPlaced, Placed, apply, constant, variable};
use crate::room::Room;
use crate::weight::sort_weight;
use std::alloc::Global;
use sy_terms::{Def, Fun, Term, Terms, Theory};

/// The term with its calls replaced, where its own list begins at position `first` of the list in force. What it
/// weighs is taken from the room; `Heavy` exactly where less is left.
#[cycle(place)]
pub(crate) fn place<T: Theory>(
    alloc: Global,
    defs: &[Def<T>],
    bodies: &[Term<T>],
    first: usize,
    term: &Term<T>,
    room: &mut Room,
) -> Result<Placed<T>, Built>
    requires definitions { DefinitionsFit T.owned T.denotes defs.now }
    requires sized { All IsSized room.now.sorts.items }
    requires own { first ≤ length room.now.sorts.items }
    requires small { room.now.left.weight < 2 ^ 32 }
    requires term { FitsOver T.owned T.denotes defs.now bodies.now
        (drop first room.now.sorts.items) (expr_of T.denotes term.now) }
    ensures ok { IfOk result (λ p. TermIsBuilt (query_scope T.owned) room.old.sorts.items
        (placed_with T.denotes defs.now bodies.now first (length room.old.sorts.items) (expr_of T.denotes term.now))
        room.old.left room.new.left (expr_of T.denotes p.term) p.sort) }
    ensures kept { OnOk result (room.new.sorts.items ≡ room.old.sorts.items) }
    ensures heavy { IsErrOf result Built.Heavy →
        room.old.left.weight < spec.weight (query_scope T.owned) room.old.sorts.items
        (placed_with T.denotes defs.now bodies.now first (length room.old.sorts.items) (expr_of T.denotes term.now)) }
{
    match term {
        Term::Const(value) => constant(*value, room),
        Term::Var(position) => variable(first, *position, room),
        Term::App(operator, arguments) => {
            let found = place_all(alloc, defs, bodies, first, arguments.as_slice(), room)?;
            apply(operator, found, room)
        }
        Term::Call(function, arguments) => {
            let found = place_all(alloc, defs, bodies, first, arguments.as_slice(), room)?;
            call(alloc, defs, bodies, *function, found, room)
        }
        Term::Let(bound, inner) => {
            let found = place_all(alloc, defs, bodies, first, bound.as_slice(), room)?;
            bind(alloc, defs, bodies, first, found, inner, room)
        }
    }
}

/// The terms with their calls replaced.
#[cycle(place)]
pub(crate) fn place_all<T: Theory>(
    alloc: Global,
    defs: &[Def<T>],
    bodies: &[Term<T>],
    first: usize,
    terms: &[Term<T>],
    room: &mut Room,
) -> Result<AllPlaced<T>, Built>
    requires definitions { DefinitionsFit T.owned T.denotes defs.now }
    requires sized { All IsSized room.now.sorts.items }
    requires own { first ≤ length room.now.sorts.items }
    requires small { room.now.left.weight < 2 ^ 32 }
    requires terms { AllFitOver T.owned T.denotes defs.now bodies.now
        (drop first room.now.sorts.items) (exprs_of T.denotes terms.now) }
    ensures ok { IfOk result (λ all. AreBuilt (query_scope T.owned) room.old.sorts.items (all_placed_with T.denotes
        defs.now bodies.now first (length room.old.sorts.items) (exprs_of T.denotes terms.now))
        room.old.left room.new.left (exprs_of T.denotes all.terms.items.items) all.sorts.items) }
    ensures kept { OnOk result (room.new.sorts.items ≡ room.old.sorts.items) }
    ensures heavy { IsErrOf result Built.Heavy →
        room.old.left.weight < spec.weights (query_scope T.owned) room.old.sorts.items (all_placed_with T.denotes
        defs.now bodies.now first (length room.old.sorts.items) (exprs_of T.denotes terms.now)) }
{
    let mut placed = Terms::new(alloc);
    let mut sorts = Vec::with_capacity(alloc, terms.len())?;
    for term in terms {
        let Placed { term, sort } = place(alloc, defs, bodies, first, term, room)?;
        placed.push(term)?;
        sorts.push(sort)?;
    }
    Ok(AllPlaced {
        terms: placed,
        sorts,
    })
}

/// A function's body with its calls replaced, in a binding of the found terms.
#[cycle(place)]
fn call<T: Theory>(
    alloc: Global,
    defs: &[Def<T>],
    bodies: &[Term<T>],
    function: Fun,
    found: AllPlaced<T>,
    room: &mut Room,
) -> Result<Placed<T>, Built>
    requires definitions { DefinitionsFit T.owned T.denotes defs.now }
    requires sized { All IsSized (room.now.sorts.items ++ found.sorts.items) }
    requires small { room.now.left.weight < 2 ^ 32 }
    requires function { FunctionTakes T.owned T.denotes defs.now bodies.now function found.sorts.items }
    ensures ok { IfOk result (λ p. IsBound (query_scope T.owned) (room.old.sorts.items ++
        found.sorts.items) (exprs_of T.denotes found.terms.items.items) (called_with T.denotes defs.now bodies.now
        function (length room.old.sorts.items) (length (room.old.sorts.items ++ found.sorts.items))) room.old.left
        room.new.left (expr_of T.denotes p.term) p.sort) }
    ensures kept { OnOk result (room.new.sorts.items ≡ room.old.sorts.items) }
    ensures heavy { IsErrOf result Built.Heavy → room.old.left.weight <
        bound_weight (query_scope T.owned) (room.old.sorts.items ++ found.sorts.items) (called_with T.denotes defs.now
        bodies.now function (length room.old.sorts.items) (length (room.old.sorts.items ++ found.sorts.items))) }
{
    let long = room.len();
    match function {
        Fun::Defined(number) => {
            let number = number as usize;
            let body = &defs[number].body;
            bind(
                alloc,
                &defs[..number],
                &bodies[..0],
                long,
                found,
                body,
                room,
            )
        }
        Fun::Wanted(number) => {
            let body = &bodies[number as usize];
            bind(alloc, defs, &bodies[..0], long, found, body, room)
        }
    }
}

/// A binding of the found terms around a term with its calls replaced, over the list with their values appended.
#[cycle(place)]
fn bind<T: Theory>(
    alloc: Global,
    defs: &[Def<T>],
    bodies: &[Term<T>],
    first: usize,
    found: AllPlaced<T>,
    inner: &Term<T>,
    room: &mut Room,
) -> Result<Placed<T>, Built>
    requires definitions { DefinitionsFit T.owned T.denotes defs.now }
    requires sized { All IsSized (room.now.sorts.items ++ found.sorts.items) }
    requires own { first ≤ length (room.now.sorts.items ++ found.sorts.items) }
    requires small { room.now.left.weight < 2 ^ 32 }
    requires inner { FitsOver T.owned T.denotes defs.now bodies.now
        (drop first (room.now.sorts.items ++ found.sorts.items)) (expr_of T.denotes inner.now) }
    ensures ok { IfOk result (λ p. IsBound (query_scope T.owned) (room.old.sorts.items ++
        found.sorts.items) (exprs_of T.denotes found.terms.items.items) (placed_with T.denotes defs.now bodies.now first
        (length (room.old.sorts.items ++ found.sorts.items)) (expr_of T.denotes inner.now)) room.old.left room.new.left
        (expr_of T.denotes p.term) p.sort) }
    ensures kept { OnOk result (room.new.sorts.items ≡ room.old.sorts.items) }
    ensures heavy { IsErrOf result Built.Heavy → room.old.left.weight <
        bound_weight (query_scope T.owned) (room.old.sorts.items ++ found.sorts.items) (placed_with T.denotes
        defs.now bodies.now first (length (room.old.sorts.items ++ found.sorts.items)) (expr_of T.denotes inner.now)) }
{
    let AllPlaced { terms, sorts } = found;
    let long = room.len();
    room.sorts.extend_from_slice(sorts.as_slice())?;
    let Placed { term, sort } = place(alloc, defs, bodies, first, inner, room)?;
    room.sorts.truncate(long);
    room.take(sort_weight(sort))?;
    Ok(Placed {
        term: Term::Let(terms, Box::new(alloc, term)?),
        sort,
    })
}
