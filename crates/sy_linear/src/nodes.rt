// What the nodes of a refutation tree add to the path.
ghost use Rattle.std.specs.Prelude.{◌≡◌, ◌≤ℤ◌, ◌<◌, ◌^◌, ◌∷◌, [], true, pos, length, slice_get, IfOk, IsErrOf};
ghost use Rattle.std.specs.List.{list_all};
ghost use Rattle.std.specs.Option.{option_map};
ghost use Rattle.sy_terms.specs.Expr.{nodes};
ghost use Rattle.sy_linear_known.specs.Forms.{form_is_in_range};
ghost use Rattle.sy_linear_known.specs.Seen.{query_known};
ghost use Rattle.sy_linear_known.specs.Stored.{linear_query_of, tree_shape_of};
ghost use Rattle.sy_linear_known.specs.Trees.{forms};
ghost use Rattle.sy_linear.specs.Judging as spec;
ghost use Rattle.sy_linear.specs.Combining.{checked_combination};
ghost use Rattle.sy_linear.specs.Judging.{TellsJudgement, AnswersAt};

use crate::combination::{
    are_multipliers, combined, constant_of, divided, is_negative_constant, number_of, rounded,
};
use std::alloc::Global;
use sy_frac::Frac;
use sy_linear_known::{CheckEnd, Fact, Form, FormEnd, Known, Test, Tree, known_under};
use sy_meaning_integers::IntTheory;
use sy_query_base::Query;
use sy_seq::{Seq, Want};
use sy_terms::Sort;

/// Whether the variable is an integer variable.
fn is_int(vars: &[Sort], variable: u32) -> bool
    ensures { result ≡ spec.is_int (slice_get vars.now variable) }
{
    matches!(vars.get(variable as usize), Some(Sort::Int))
}

/// Whether the variable is one of sort `Bool`.
fn is_bool(vars: &[Sort], variable: u32) -> bool
    ensures { result ≡ spec.is_bool (slice_get vars.now variable) }
{
    matches!(vars.get(variable as usize), Some(Sort::Bool))
}

/// Whether each of the coefficients is that of an integer variable.
fn all_int(vars: &[Sort], coefficients: &[(u32, i128)]) -> bool
    ensures { result ≡ list_all (spec.has_int vars.now) coefficients.now }
{
    coefficients
        .iter()
        .all(|coefficient| is_int(vars, coefficient.0))
}

/// Whether the test is on variables of the query, each of the sort that it asks for.
pub fn suits(vars: &[Sort], test: &Test) -> bool
    ensures { result ≡ spec.suits vars.now test.now }
{
    match test {
        Test::AtLeast(form) => all_int(vars, form.coefs.as_slice()),
        Test::Holds(variable) => is_bool(vars, *variable),
    }
}

/// Why a node isn't judged, where a form isn't built.
fn end_at(end: FormEnd, node: u32) -> CheckEnd
    ensures { result ≡ spec.end_at node end }
{
    match end {
        FormEnd::OutOfRange => CheckEnd::Range(node),
        FormEnd::Want => CheckEnd::Want,
    }
}

/// The same form; its numbers are of 128 bits.
fn copied(alloc: Global, form: &Form) -> Result<Form, Want>
    ensures same { IfOk result (λ copy. copy ≡ form.now) }
    ensures fits { IfOk result (λ copy. form_is_in_range copy ≡ true) }
{
    let mut coefs = Seq::new(alloc);
    for coefficient in form.coefs.as_slice() {
        coefs.push((coefficient.0, number_of(coefficient)))?;
    }
    Ok(Form {
        coefs,
        constant: constant_of(form),
    })
}

/// The facts that a split adds, of the test and of its negation. `None` where the test isn't on variables of the
/// query. `Range` with the node's number exactly where a coefficient of the negation leaves 128 bits.
pub fn split(
    alloc: Global,
    vars: &[Sort],
    test: &Test,
    node: u32,
) -> Result<Option<(Fact, Fact)>, CheckEnd>
    ensures { AnswersAt node result (spec.split_outcome vars.now test.now) }
{
    if !suits(vars, test) {
        return Ok(None);
    }
    match test {
        Test::AtLeast(form) => {
            let form = copied(alloc, form)?;
            match form.negation(alloc) {
                Ok(opposite) => Ok(Some((Fact::AtLeast(form), Fact::AtLeast(opposite)))),
                Err(end) => Err(end_at(end, node)),
            }
        }
        Test::Holds(variable) => Ok(Some((Fact::Is(*variable, true), Fact::Is(*variable, false)))),
    }
}

/// The fact that so many times the variable and the constant are at least 0.
fn bounded(alloc: Global, coefficient: i128, variable: u32, constant: i128) -> Result<Fact, Want>
    ensures { IfOk result (λ fact. fact ≡
        Fact.AtLeast (record { coefs = (variable, coefficient) ∷ []; constant = constant })) }
{
    let mut coefs = Seq::new(alloc);
    coefs.push((variable, coefficient))?;
    Ok(Fact::AtLeast(Form { coefs, constant }))
}

/// The facts that a branch adds: that the variable is at most the bound, and that it is above. `None` where it is no
/// integer variable of the query.
pub fn branch(
    alloc: Global,
    vars: &[Sort],
    variable: u32,
    bound: i128,
    node: u32,
) -> Result<Option<(Fact, Fact)>, CheckEnd>
    ensures { AnswersAt node result (spec.branch_outcome vars.now variable bound) }
{
    if !is_int(vars, variable) {
        return Ok(None);
    }
    let below = bounded(alloc, -1, variable, bound)?;
    let above = bounded(alloc, 1, variable, -1 - bound)?;
    Ok(Some((below, above)))
}

/// The combination divided by the divisor, with its constant rounded down; `None` where a share isn't whole.
fn cut_form(
    alloc: Global,
    facts: &[Fact],
    multipliers: &[Frac],
    divisor: i128,
) -> Result<Option<Form>, FormEnd>
    requires { pos 1 ≤ℤ divisor }
    ensures ok { IfOk result (λ form. spec.rounded_outcome (spec.divided_combination divisor
        (checked_combination multipliers.now (forms facts.now))) ≡ spec.added_form form) }
    ensures unfit { IsErrOf result FormEnd.OutOfRange → spec.rounded_outcome
        (spec.divided_combination divisor (checked_combination multipliers.now (forms facts.now))) ≡ spec.Leaves }
{
    let whole = match combined(alloc, multipliers, facts) {
        Ok(whole) => whole,
        Err(end) => return Err(end),
    };
    let part = match divided(alloc, divisor, &whole) {
        Ok(part) => part,
        Err(end) => return Err(end),
    };
    let form = rounded(alloc, &part)?;
    Ok(form)
}

/// The fact that a cut adds: the combination of the facts' forms divided by the divisor, its constant rounded down.
/// `None` where the multipliers aren't one for each form and none of them negative, the divisor is below 1, or a
/// divided coefficient isn't whole. `Range` with the node's number exactly where a number leaves 128 bits.
pub fn cut(
    alloc: Global,
    facts: &[Fact],
    multipliers: &[Frac],
    divisor: i128,
    node: u32,
) -> Result<Option<Fact>, CheckEnd>
    ensures { AnswersAt node result (spec.cut_outcome facts.now multipliers.now divisor) }
{
    if !are_multipliers(multipliers, facts) || divisor < 1 {
        return Ok(None);
    }
    match cut_form(alloc, facts, multipliers, divisor) {
        Ok(Some(form)) => Ok(Some(Fact::AtLeast(form))),
        Ok(None) => Ok(None),
        Err(end) => Err(end_at(end, node)),
    }
}

/// The number that is referred to.
fn referred(number: &i128) -> i128
    ensures { result ≡ number.now }
{
    *number
}

/// Of what a node adds, the fact on one side.
fn on_side(both: Option<(Fact, Fact)>, on_left: bool) -> Option<Fact>
    ensures { result ≡ option_map (spec.side_of on_left) both }
{
    let (left, right) = both?;
    if on_left { Some(left) } else { Some(right) }
}

/// The fact that the root of this tree adds on one side. `None` where the root isn't as a refutation tree's is, or adds
/// none; `Range` with its number exactly where a number leaves 128 bits.
pub(crate) fn added(
    alloc: Global,
    vars: &[Sort],
    facts: &[Fact],
    above: &Tree,
    on_left: bool,
    node: u32,
) -> Result<Option<Fact>, CheckEnd>
    ensures { AnswersAt node result (spec.side_outcome vars.now facts.now on_left (tree_shape_of above.now)) }
{
    match above {
        Tree::Split(test, _, _, _) => {
            let both = split(alloc, vars, test, node)?;
            Ok(on_side(both, on_left))
        }
        Tree::Branch(variable, bound, _, _, _) => {
            let both = branch(alloc, vars, *variable, referred(bound), node)?;
            Ok(on_side(both, on_left))
        }
        Tree::Cut(multipliers, divisor, _, _) => {
            cut(
                alloc,
                facts,
                multipliers.as_slice(),
                referred(divisor),
                node,
            )
        }
        Tree::Farkas(_) | Tree::Shown | Tree::Unfinished => Ok(None),
    }
}

/// Whether there is one multiplier for each form among the facts, none of them negative, and the combination of the
/// forms is a negative constant. `Range` with the node's number exactly where a number leaves 128 bits.
pub fn contradicts(
    alloc: Global,
    facts: &[Fact],
    multipliers: &[Frac],
    node: u32,
) -> Result<bool, CheckEnd>
    ensures { TellsJudgement result (spec.contradiction_judged facts.now node multipliers.now) }
{
    if !are_multipliers(multipliers, facts) {
        return Ok(false);
    }
    match combined(alloc, multipliers, facts) {
        Ok(combination) => Ok(is_negative_constant(&combination)),
        Err(end) => Err(end_at(end, node)),
    }
}

/// Whether the facts make the query false. `Range` with the node's number exactly where `known_under` finds a node of
/// the query at which a form doesn't fit.
pub(crate) fn shows(
    alloc: Global,
    query: &Query<IntTheory>,
    facts: &[Fact],
    node: u32,
) -> Result<bool, CheckEnd>
    requires nodes { nodes (linear_query_of query.now).body < 2 ^ 31 }
    requires vars { length query.now.vars < 2 ^ 31 }
    ensures { TellsJudgement result (spec.shown_judged node (query_known (linear_query_of query.now) facts.now)) }
{
    match known_under(alloc, query, facts)? {
        Known::False => Ok(true),
        Known::True | Known::Undecided(_) => Ok(false),
        Known::OutOfRange(_) => Err(CheckEnd::Range(node)),
    }
}
