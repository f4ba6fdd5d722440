// What multipliers give, checked.
ghost use Rattle.std.specs.Prelude.{◌≡◌, ◌<◌, ◌^◌, true, pos, length, IfOk, IfSome};
ghost use Rattle.std.specs.List.{list_all};
ghost use Rattle.sy_frac.specs.Rational.{is_negative_rational};
ghost use Rattle.sy_frac.specs.Kinds as kinds;
ghost use Rattle.sy_linear_known.specs.declared.path.Fact.TheVariants.{AtLeast};
ghost use Rattle.sy_linear_known.specs.Points.{form_value_at};
ghost use Rattle.sy_simplex.specs.Problems.{numbers};
ghost use Rattle.sy_intsolve_paths_laws.specs.Paths.{Suit};
ghost use Rattle.sy_intsolve_cuts.specs.Cuts.{IsRoundingForm};

use crate::keeping::number_at;
use std::alloc::{AllocError, Global};
use sy_frac::{Frac, is_below_one, is_below_zero};
use sy_linear::{cut, suits};
use sy_linear_known::{CheckEnd, Fact, Form, Test};
use sy_seq::Want;
use sy_simplex::is_form;
use sy_terms::Sort;

/// Whether each multiplier is below 1.
fn are_below_one(multipliers: &[Frac]) -> bool
    ensures { result ≡ list_all kinds.is_below_one multipliers.now }
{
    multipliers
        .iter()
        .all(|multiplier| is_below_one(multiplier))
}

/// Whether the form is known to be negative at the point.
fn is_broken(form: &Form, point: &[Frac]) -> bool
    ensures { result ≡ true → is_negative_rational (form_value_at form.now (numbers point.now)) ≡ true }
{
    match number_at(form, point) {
        Some(number) => is_below_zero(&number),
        None => false,
    }
}

/// The form, where it is on integer variables.
fn suited(vars: &[Sort], form: Form) -> Option<Form>
    requires { length vars.now < 2 ^ 31 }
    ensures { IfSome result (λ same. (same ≡ form) × Suit vars.now (AtLeast same)) }
{
    if !is_form(vars.len() as u32, &form) {
        return None;
    }
    let test = Test::AtLeast(form);
    if !suits(vars, &test) {
        return None;
    }
    match test {
        Test::AtLeast(form) => Some(form),
        Test::Holds(_) => None,
    }
}

/// The form that the facts' forms by these multipliers add up to, its constant rounded down, where it is on integer
/// variables and negative at the point, and the multipliers are below 1. `None` where that isn't so, or a number leaves
/// 128 bits. `Want` comes where memory runs out, and nowhere else.
pub fn checked(
    alloc: Global,
    vars: &[Sort],
    facts: &[Fact],
    multipliers: &[Frac],
    point: &[Frac],
) -> Result<Option<Form>, Want>
    requires { length vars.now < 2 ^ 31 }
    ensures { IfOk result (λ found.
        IfSome found (IsRoundingForm vars.now facts.now multipliers.now (pos 1) point.now)) }
{
    if !are_below_one(multipliers) {
        return Ok(None);
    }
    let form = match cut(alloc, facts, multipliers, 1, 0) {
        Ok(Some(Fact::AtLeast(form))) => form,
        Ok(_) | Err(CheckEnd::Range(_)) => return Ok(None),
        Err(CheckEnd::Want) => return Err(AllocError),
    };
    if !is_broken(&form, point) {
        return Ok(None);
    }
    Ok(suited(vars, form))
}
