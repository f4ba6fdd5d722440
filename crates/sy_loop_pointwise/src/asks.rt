// The applications of functions to be found within subterms.
ghost use Rattle.std.specs.Prelude.{ℕ, List, ◌≡◌, ◌++◌, ◌↔◌, IsTrue, length, IfOk, MatchOption};
ghost use Rattle.sy_terms.specs.Expr.{Exprs, Invoke};
ghost use Rattle.sy_terms.specs.declared.term.Fun.{Fun};
ghost use Rattle.sy_terms.specs.declared.term.Fun.TheVariants.{Wanted};
ghost use Rattle.sy_loop_spec.specs.Applications.{applications, all_applications};
ghost use Rattle.sy_loop_pointwise.specs.Denoted.{shape_of, shapes_of};
ghost use Rattle.sy_loop_pointwise.specs.Shapes.{AreBelow, AreSubterms, numbers_of, shaped, subterms, term_of, terms_of};
ghost use Rattle.sy_loop_pointwise.specs.Asked.{AreApplications, AreKnown, AreArguments};

use crate::shape::{Shape, same_numbers};
use std::alloc::Global;
use sy_terms::{Fun, Seq, Theory, Want};

/// Which applications of functions to be found stand within subterms.
#[derive(Clone, Copy)]
pub(crate) enum Asks {
    /// None.
    Nothing,
    /// Some, all with the arguments of the application of this number, and these contain none.
    Calls(usize),
    /// Some, and no list of arguments that contains none is that of all.
    Mixed,
}

/// The numbers of the arguments of the call of this number; `None` where it is no call.
pub(crate) fn arguments_of<T: Theory>(shapes: &[Shape<T>], number: usize) -> Option<&Seq<u32>>
    requires subterms { AreSubterms (shapes_of T.denotes shapes.now) }
    ensures { MatchOption result
        ((function : Fun) (arguments : Exprs) →
        term_of (subterms (shapes_of T.denotes shapes.now)) number ≡ Invoke function arguments → ⊥)
        (λ numbers. AreArguments (shapes_of T.denotes shapes.now) number numbers.now) }
{
    match shapes.get(number)? {
        Shape::Call(_, numbers) => Some(numbers),
        _ => None,
    }
}

/// Whether the calls of these numbers have the same arguments.
fn same_arguments<T: Theory>(shapes: &[Shape<T>], first: usize, second: usize) -> bool
    requires subterms { AreSubterms (shapes_of T.denotes shapes.now) }
    ensures { (one other : Fun) (ones others : Exprs) →
        term_of (subterms (shapes_of T.denotes shapes.now)) first ≡ Invoke one ones →
        term_of (subterms (shapes_of T.denotes shapes.now)) second ≡ Invoke other others →
        (IsTrue result ↔ ones ≡ others) }
{
    match (arguments_of(shapes, first), arguments_of(shapes, second)) {
        (Some(ones), Some(others)) => same_numbers(ones, others),
        _ => false,
    }
}

/// What stands within the subterms of two lists.
fn joined<T: Theory>(shapes: &[Shape<T>], first: Asks, second: Asks) -> Asks
    requires subterms { AreSubterms (shapes_of T.denotes shapes.now) }
    ensures { (ones others : List (ℕ × Exprs)) →
        AreApplications (subterms (shapes_of T.denotes shapes.now)) ones first →
        AreApplications (subterms (shapes_of T.denotes shapes.now)) others second →
        AreApplications (subterms (shapes_of T.denotes shapes.now)) (ones ++ others) result }
{
    match (first, second) {
        (Asks::Nothing, _) => second,
        (_, Asks::Nothing) => first,
        (Asks::Calls(one), Asks::Calls(other)) => {
            if same_arguments(shapes, one, other) {
                first
            } else {
                Asks::Mixed
            }
        }
        _ => Asks::Mixed,
    }
}

/// What stands within the subterms of these numbers, where it is known of each.
fn asked_by<T: Theory>(shapes: &[Shape<T>], asks: &[Asks], numbers: &[u32]) -> Asks
    requires subterms { AreSubterms (shapes_of T.denotes shapes.now) }
    requires known { AreKnown (subterms (shapes_of T.denotes shapes.now)) asks.now }
    requires below { AreBelow (length asks.now) numbers.now }
    ensures { AreApplications (subterms (shapes_of T.denotes shapes.now))
        (all_applications (terms_of (subterms (shapes_of T.denotes shapes.now)) numbers.now)) result }
{
    let mut all = Asks::Nothing;
    for number in numbers {
        all = joined(shapes, all, asks[*number as usize]);
    }
    all
}

/// What stands within the next subterm, where it is known of those before it.
fn asks_of<T: Theory>(shapes: &[Shape<T>], asks: &[Asks], shape: &Shape<T>) -> Asks
    requires subterms { AreSubterms (shapes_of T.denotes shapes.now) }
    requires known { AreKnown (subterms (shapes_of T.denotes shapes.now)) asks.now }
    requires below { AreBelow (length asks.now) (numbers_of (shape_of T.denotes shape.now)) }
    requires next { term_of (subterms (shapes_of T.denotes shapes.now)) (length asks.now) ≡
        shaped (subterms (shapes_of T.denotes shapes.now)) (shape_of T.denotes shape.now) }
    ensures { AreApplications (subterms (shapes_of T.denotes shapes.now))
        (applications (term_of (subterms (shapes_of T.denotes shapes.now)) (length asks.now))) result }
{
    match shape {
        Shape::Const(_) => Asks::Nothing,
        Shape::Var(_) => Asks::Nothing,
        Shape::App(_, numbers) => asked_by(shapes, asks, numbers.as_slice()),
        Shape::Call(function, numbers) => {
            let within = asked_by(shapes, asks, numbers.as_slice());
            match function {
                Fun::Defined(_) => within,
                Fun::Wanted(_) => applied(shapes, within, asks.len()),
            }
        }
    }
}

/// What stands within an application of this number, where this stands within its arguments.
fn applied<T: Theory>(shapes: &[Shape<T>], within: Asks, number: usize) -> Asks
    ensures { (function : ℕ) (arguments : Exprs) →
        term_of (subterms (shapes_of T.denotes shapes.now)) number ≡ Invoke (Wanted function) arguments →
        AreApplications (subterms (shapes_of T.denotes shapes.now)) (all_applications arguments) within →
        AreApplications (subterms (shapes_of T.denotes shapes.now))
        (applications (Invoke (Wanted function) arguments)) result }
{
    match within {
        Asks::Nothing => Asks::Calls(number),
        Asks::Calls(_) => Asks::Mixed,
        Asks::Mixed => Asks::Mixed,
    }
}

/// What stands within each subterm.
pub(crate) fn all_asks<T: Theory>(alloc: Global, shapes: &[Shape<T>]) -> Result<Vec<Asks>, Want>
    requires subterms { AreSubterms (shapes_of T.denotes shapes.now) }
    ensures many { IfOk result (λ asks. length asks.items ≡ length shapes.now) }
    ensures known { IfOk result (λ asks. AreKnown (subterms (shapes_of T.denotes shapes.now)) asks.items) }
{
    let mut asks = Vec::with_capacity(alloc, shapes.len())?;
    for shape in shapes {
        let own = asks_of(shapes, asks.as_slice(), shape);
        asks.push(own)?;
    }
    Ok(asks)
}
