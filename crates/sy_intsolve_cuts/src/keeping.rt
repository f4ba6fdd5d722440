// Points that are kept where they still meet a path.
ghost use Rattle.std.specs.Prelude.{◌≡◌, ◌<◌, ◌∷◌, ◌++◌, [], List, true, not, pos, int_lt, IfOk, IfSome};
ghost use Rattle.sy_frac.specs.Rational.{◌+ℚ◌, ◌*ℚ◌, value};
ghost use Rattle.sy_terms.specs.declared.sort.Sort.{Sort};
ghost use Rattle.sy_linear_known.specs.declared.path.Fact.{Fact as FactOf};
ghost use Rattle.sy_linear_known.specs.Points.{form_value_at};
ghost use Rattle.sy_linear_known.specs.Trees.{whole_ℚ};
ghost use Rattle.sy_simplex.specs.Rows.{at};
ghost use Rattle.sy_simplex.specs.Problems.{numbers};
ghost use Rattle.sy_intsolve_cuts.specs.Points.{IsPointOf, IsMetBy};

use std::alloc::Global;
use sy_frac::Frac;
use sy_linear_known::{Fact, Form};
use sy_seq::{Seq, Want};
use sy_simplex::whole;

/// The point's number of the variable; `None` where it has none.
fn number_of(point: &[Frac], variable: u32) -> Option<Frac>
    ensures { IfSome result (λ number. (number ≡ at point.now variable) × (0 < number.den)) }
{
    let number = point.get(variable as usize)?;
    let _positive = number.den();
    Some(*number)
}

/// The sum, where each number that it forms fits.
fn sum(first: &Frac, second: &Frac) -> Option<Frac>
    ensures { IfSome result (λ number. (value number ≡ value first.now +ℚ value second.now) × (0 < number.den)) }
{
    let _positive = (first.den(), second.den());
    first.add(second)
}

/// The fraction of a whole number, where its magnitude fits.
fn fraction(number: &i128) -> Option<Frac>
    ensures { IfSome result (λ fraction. (value fraction ≡ whole_ℚ number.now) × (0 < fraction.den)) }
{
    let value = *number;
    whole(value)
}

/// Whether the fraction isn't negative.
fn is_met(number: &Frac) -> bool
    ensures { result ≡ not (int_lt number.now.num (pos 0)) }
{
    number.num() >= 0
}

/// The coefficient times its variable's number, where each number that this forms fits.
fn term_at(coefficient: &(u32, i128), point: &[Frac]) -> Option<Frac>
    ensures { IfSome result (λ number.
        (value number ≡ whole_ℚ coefficient.now.1 *ℚ numbers point.now coefficient.now.0) × (0 < number.den)) }
{
    let factor = fraction(&coefficient.1)?;
    let number = number_of(point, coefficient.0)?;
    factor.mul(&number)
}

/// The form's value at the point, where each number that its operations form fits; `None` where one doesn't, or the
/// point has no number for a variable.
pub fn number_at(form: &Form, point: &[Frac]) -> Option<Frac>
    ensures { IfSome result (λ number. value number ≡ form_value_at form.now (numbers point.now)) }
{
    let mut number = fraction(&form.constant)?;
    for coefficient in form.coefs.as_slice() {
        let term = term_at(coefficient, point)?;
        number = sum(&term, &number)?;
    }
    Some(number)
}

/// Whether the point is known to meet the fact: a fact on a truth value always, and a form where its value can be
/// computed and isn't negative.
pub fn meets(fact: &Fact, point: &[Frac]) -> bool
    ensures { result ≡ true → IsMetBy point.now fact.now }
{
    match fact {
        Fact::AtLeast(form) => match number_at(form, point) {
            Some(number) => is_met(&number),
            None => false,
        },
        Fact::Is(_, _) => true,
    }
}

/// The same point, in memory of its own. `Want` comes where memory runs out, and nowhere else.
pub fn copied(alloc: Global, point: &[Frac]) -> Result<Seq<Frac>, Want>
    ensures { IfOk result (λ copy. copy ≡ point.now) }
{
    let mut copy = Seq::new(alloc);
    for number in point {
        copy.push(*number)?;
    }
    Ok(copy)
}

/// A copy of the point, where it is known to meet the fact: of a point of a path, one of the path with this fact.
/// `None` where that isn't known. `Want` comes where memory runs out, and nowhere else.
pub fn kept(alloc: Global, point: &[Frac], fact: &Fact) -> Result<Option<Seq<Frac>>, Want>
    ensures { (vars : List Sort) (path : List FactOf) →
        IsPointOf vars path point.now → IfOk result (λ found. IfSome found (IsPointOf vars (path ++ fact.now ∷ []))) }
{
    if !meets(fact, point) {
        return Ok(None);
    }
    let copy = copied(alloc, point)?;
    Ok(Some(copy))
}
