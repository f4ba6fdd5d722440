// The walk through the live nodes of a term.
ghost use Rattle.std.specs.Prelude.{◌≡◌, ◌+◌, ◌<◌, ◌^◌, ◌++◌, IfOk, OnOk, true, cond, length};
ghost use Rattle.sy_terms.specs.Values.{Whole};
ghost use Rattle.sy_terms.specs.Expr.{nodes, nodes_of};
ghost use Rattle.sy_terms.specs.Denoted.{val_of, expr_of, exprs_of};
ghost use Rattle.sy_linear_known.specs.Seen as spec;
ghost use Rattle.sy_linear_known.specs.Sights.{operator_applied};
ghost use Rattle.sy_linear_known.specs.Fitting.{sight_fits, all_fit};

use crate::application::applied;
use crate::facts::Facts;
use crate::form::Form;
use crate::path::Test;
use crate::sight::{Found, Seen, Sight};
use std::alloc::Global;
use sy_meaning_integers::IntTheory;
use sy_seq::Want;
use sy_terms::{Op, Sort, Term, Terms, Value};

/// The form of a number, or the truth value.
fn of_value(alloc: Global, value: &Value<i128>) -> Sight
    ensures value { result ≡ spec.of_value (val_of Whole value.now) }
    ensures fits { sight_fits result ≡ true }
{
    match value {
        Value::Truth(truth) => Sight::Settled(*truth),
        Value::Num(number) => Sight::Linear(Form::number(alloc, *number)),
    }
}

/// What is told of the name of this number.
fn sight_at(alloc: Global, names: &[Sight], number: u32) -> Result<Sight, Want>
    ensures { IfOk result (λ s. s ≡ spec.sight_at names.now number) }
{
    match names.get(number as usize) {
        Some(sight) => sight.copy(alloc),
        None => Ok(Sight::Open),
    }
}

/// A variable of which the path doesn't tell whether it is true.
fn variable_test(vars: &[Sort], sight: &Sight, number: u32) -> Option<Test>
    ensures { result ≡ spec.variable_test vars.now sight.now number }
{
    if sight.is_open() && matches!(vars.get(number as usize), Some(Sort::Bool)) {
        Some(Test::Holds(number))
    } else {
        None
    }
}

/// What is found at a name.
fn variable(alloc: Global, vars: &[Sort], names: &[Sight], number: u32) -> Result<Seen, Want>
    requires { all_fit names.now ≡ true }
    ensures seen { IfOk result (λ s. s ≡ spec.variable_seen vars.now names.now number) }
    ensures fits { IfOk result (λ s. sight_fits s.sight ≡ true) }
{
    let sight = sight_at(alloc, names, number)?;
    let unknown = variable_test(vars, &sight, number);
    Ok(Seen {
        sight,
        unknown,
        misfit: None,
    })
}

/// Whether the operator chooses between branches.
fn is_choice(operator: &Op) -> bool
    ensures { result ≡ spec.is_ite operator.now }
{
    matches!(operator, Op::Ite)
}

/// Whether the next argument is live, by what is told of those before it.
fn is_live(choice: bool, before: &[Sight]) -> bool
    ensures { result ≡ spec.live choice before.now }
{
    if !choice {
        return true;
    }
    match before {
        [] => true,
        [Sight::Settled(truth)] => *truth,
        [Sight::Settled(truth), _] => !*truth,
        _ => false,
    }
}

/// Passes the nodes of a term.
fn skip(term: &Term<IntTheory>, next: &mut u32)
    requires { next.old + nodes (expr_of Whole term.now) < 2 ^ 32 }
    ensures { next.new ≡ next.old + nodes (expr_of Whole term.now) }
{
    let count = term.size(1 << 32);
    *next += count as u32;
}

/// Appends copies of what is told of bound terms.
fn bind(alloc: Global, names: &mut Vec<Sight>, bound: &[Sight]) -> Result<(), Want>
    ensures { OnOk result (names.new.items ≡ names.old.items ++ bound.now) }
{
    for sight in bound {
        let copy = sight.copy(alloc)?;
        names.push(copy)?;
    }
    Ok(())
}

/// Appends copies of what is told of bound terms, and hands on what was found in them.
fn bound_by(alloc: Global, names: &mut Vec<Sight>, found: Found) -> Result<Found, Want>
    ensures found { IfOk result (λ same. same ≡ found) }
    ensures names { OnOk result (names.new.items ≡ names.old.items ++ found.sights) }
{
    match bind(alloc, names, found.sights.as_slice()) {
        Ok(()) => Ok(found),
        Err(want) => {
            drop(found);
            Err(want)
        }
    }
}

/// What is found at the application of this number, by what is found in its arguments.
fn noted(
    alloc: Global,
    path: &Facts<'_>,
    operator: &Op,
    at: u32,
    below: Found,
) -> Result<Seen, Want>
    requires { all_fit below.sights ≡ true }
    ensures seen { IfOk result (λ s.
        s ≡ spec.node_noted at (operator_applied path.now operator.now below.sights) below) }
    ensures fits { IfOk result (λ s. sight_fits s.sight ≡ true) }
{
    match applied(alloc, path, operator, below.sights.as_slice()) {
        Ok(node) => Ok(Seen::noted(at, node, below)),
        Err(want) => {
            drop(below);
            Err(want)
        }
    }
}

/// What is found in a term, by what is told of the names in force; `next` is the number of its node, and then of
/// the node after it.
#[cycle(walk)]
pub(crate) fn walk(
    alloc: Global,
    vars: &[Sort],
    path: &Facts<'_>,
    names: &mut Vec<Sight>,
    term: &Term<IntTheory>,
    next: &mut u32,
) -> Result<Seen, Want>
    requires names { all_fit names.old.items ≡ true }
    requires room { next.old + nodes (expr_of Whole term.now) < 2 ^ 32 }
    ensures seen { IfOk result (λ s.
        s ≡ spec.seen vars.now path.now names.old.items next.old (expr_of Whole term.now)) }
    ensures fits { IfOk result (λ s. sight_fits s.sight ≡ true) }
    ensures names { OnOk result (names.new.items ≡ names.old.items) }
    ensures next { OnOk result (next.new ≡ next.old + nodes (expr_of Whole term.now)) }
{
    let at = *next;
    match term {
        Term::Const(value) => {
            *next += 1;
            Ok(Seen::leaf(of_value(alloc, value)))
        }
        Term::Var(number) => {
            *next += 1;
            let seen = variable(alloc, vars, names.as_slice(), *number)?;
            Ok(seen)
        }
        Term::App(operator, arguments) => {
            *next += 1;
            let choice = is_choice(operator);
            let below = walk_all(alloc, vars, path, names, choice, arguments, next)?;
            let seen = noted(alloc, path, operator, at, below)?;
            Ok(seen)
        }
        Term::Call(_, _) => {
            skip(term, next);
            Ok(Seen::unfit(at))
        }
        Term::Let(bound, inner) => {
            *next += 1;
            let below = walk_all(alloc, vars, path, names, false, bound, next)?;
            let outer = names.len();
            let found = bound_by(alloc, names, below)?;
            match walk(alloc, vars, path, names, inner, next) {
                Ok(seen) => {
                    names.truncate(outer);
                    Ok(Seen::after(found, seen))
                }
                Err(want) => {
                    drop(found);
                    Err(want)
                }
            }
        }
    }
}

/// What is found in a term where it is live, and nothing where it isn't.
#[cycle(walk)]
fn walk_if(
    alloc: Global,
    vars: &[Sort],
    path: &Facts<'_>,
    names: &mut Vec<Sight>,
    live: bool,
    term: &Term<IntTheory>,
    next: &mut u32,
) -> Result<Seen, Want>
    requires names { all_fit names.old.items ≡ true }
    requires room { next.old + nodes (expr_of Whole term.now) < 2 ^ 32 }
    ensures seen { IfOk result (λ s. s ≡ cond live
        (spec.seen vars.now path.now names.old.items next.old (expr_of Whole term.now)) (spec.seen_as Sight.Open)) }
    ensures fits { IfOk result (λ s. sight_fits s.sight ≡ true) }
    ensures names { OnOk result (names.new.items ≡ names.old.items) }
    ensures next { OnOk result (next.new ≡ next.old + nodes (expr_of Whole term.now)) }
{
    if live {
        let seen = walk(alloc, vars, path, names, term, next)?;
        Ok(seen)
    } else {
        skip(term, next);
        Ok(Seen::leaf(Sight::Open))
    }
}

/// What is found in arguments; of a choice only the live ones are walked through.
#[cycle(walk)]
fn walk_all(
    alloc: Global,
    vars: &[Sort],
    path: &Facts<'_>,
    names: &mut Vec<Sight>,
    choice: bool,
    terms: &Terms<IntTheory>,
    next: &mut u32,
) -> Result<Found, Want>
    requires names { all_fit names.old.items ≡ true }
    requires room { next.old + nodes_of (exprs_of Whole terms.now.items.items) < 2 ^ 32 }
    ensures found { IfOk result (λ f. f ≡ spec.all_seen vars.now
        path.now names.old.items choice next.old spec.nothing_found (exprs_of Whole terms.now.items.items)) }
    ensures fits { IfOk result (λ f. all_fit f.sights ≡ true) }
    ensures names { OnOk result (names.new.items ≡ names.old.items) }
    ensures next { OnOk result (next.new ≡ next.old + nodes_of (exprs_of Whole terms.now.items.items)) }
{
    let mut found = Found::new(alloc);
    for term in terms.as_slice() {
        let live = is_live(choice, found.sights.as_slice());
        match walk_if(alloc, vars, path, names, live, term, next) {
            Ok(seen) => found = found.with_next(seen)?,
            Err(want) => {
                drop(found);
                return Err(want);
            }
        }
    }
    Ok(found)
}
