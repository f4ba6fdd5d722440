// Values of the function to be found that constraints name outright, at values of the variables.
ghost use Rattle.sy_grammar_base.specs.Fits.{ProblemFits};
ghost use Rattle.sy_grammar_base.specs.Solving.{AreValues};
ghost use Rattle.sy_terms.specs.Denoted.{vals_of};

use std::alloc::{AllocError, Global};
use sy_grammar_base::Problem;
use sy_meaning::{Eval, evaluate, term_sort};
use sy_terms::{Fun, Op, Seq, Term, Terms, Theory, Value, Values, Want};

/// An argument tuple of the function to be found, and the value that is wanted of it.
#[derive(Drop)]
pub struct Wish<T: Theory> {
    pub tuple: Values<T>,
    pub value: Value<T::Num>,
}

/// What the constraints want of the one function to be found at these values of the variables, where they name it
/// outright.
/// `(= (f ..) t)` wants a value, where no call is in `t` and the arguments; `(f ..)` wants to be true, and `(not (f
/// ..))` to be false; so does a part of `and`, `or` and `=>`, where the others leave it no choice. Nothing is wanted
/// where an assumption is false. What is wanted is a guide to a search: a solution is proved by its query. `Want` comes
/// where memory runs out, and nowhere else.
pub fn wishes_at<T: Theory>(
    alloc: Global,
    problem: &Problem<T>,
    values: &[Value<T::Num>],
) -> Result<Vec<Wish<T>>, Want>
    requires problem { ProblemFits T.Theory problem.now }
    requires values { AreValues problem.now.vars (vals_of T.denotes values.now) }
{
    let mut wishes = Vec::new(alloc);
    for assumption in problem.assumptions.as_slice() {
        if is_value(alloc, problem, values, assumption, false)? {
            return Ok(wishes);
        }
    }
    for constraint in problem.constraints.as_slice() {
        gather(alloc, problem, values, constraint, true, &mut wishes)?;
    }
    Ok(wishes)
}

/// Adds what is wanted where the term is to be of this truth.
#[cycle(gather)]
fn gather<T: Theory>(
    alloc: Global,
    problem: &Problem<T>,
    values: &[Value<T::Num>],
    term: &Term<T>,
    truth: bool,
    wishes: &mut Vec<Wish<T>>,
) -> Result<(), Want>
    requires problem { ProblemFits T.Theory problem.now }
    requires values { AreValues problem.now.vars (vals_of T.denotes values.now) }
{
    match term {
        Term::App(operator, parts) => match operator {
            Op::Not => gather_parts(alloc, problem, values, parts, !truth, !truth, wishes),
            Op::And => gather_parts(alloc, problem, values, parts, true, truth, wishes),
            Op::Or => gather_parts(alloc, problem, values, parts, false, truth, wishes),
            Op::Implies => gather_implied(alloc, problem, values, parts, truth, wishes),
            Op::Equal if truth => add_equal(alloc, problem, values, parts.as_slice(), wishes),
            _ => Ok(()),
        },
        Term::Call(_, _) => add_call(alloc, problem, values, term, Value::Truth(truth), wishes),
        Term::Const(_) | Term::Var(_) | Term::Let(_, _) => Ok(()),
    }
}

/// Adds what is wanted where the terms' conjunction (`neutral` is true) or disjunction (it is false) is to be of this
/// truth: of all of them, or of the only one that is open.
#[cycle(gather)]
fn gather_parts<T: Theory>(
    alloc: Global,
    problem: &Problem<T>,
    values: &[Value<T::Num>],
    terms: &Terms<T>,
    neutral: bool,
    truth: bool,
    wishes: &mut Vec<Wish<T>>,
) -> Result<(), Want>
    requires problem { ProblemFits T.Theory problem.now }
    requires values { AreValues problem.now.vars (vals_of T.denotes values.now) }
{
    let all = truth == neutral;
    for (place, term) in terms.as_slice().iter().enumerate() {
        if all || are_others(alloc, problem, values, terms.as_slice(), place, neutral)? {
            gather(alloc, problem, values, term, truth, wishes)?;
        }
    }
    Ok(())
}

/// Adds what is wanted where the implication of two terms is to be of this truth.
#[cycle(gather)]
fn gather_implied<T: Theory>(
    alloc: Global,
    problem: &Problem<T>,
    values: &[Value<T::Num>],
    terms: &Terms<T>,
    truth: bool,
    wishes: &mut Vec<Wish<T>>,
) -> Result<(), Want>
    requires problem { ProblemFits T.Theory problem.now }
    requires values { AreValues problem.now.vars (vals_of T.denotes values.now) }
{
    let terms = terms.as_slice();
    if terms.len() != 2 {
        return Ok(());
    }
    if !truth || is_value(alloc, problem, values, &terms[0], true)? {
        gather(alloc, problem, values, &terms[1], truth, wishes)?;
    }
    if !truth || is_value(alloc, problem, values, &terms[1], false)? {
        gather(alloc, problem, values, &terms[0], !truth, wishes)?;
    }
    Ok(())
}

/// Whether all of the terms but the one at this place have the truth.
fn are_others<T: Theory>(
    alloc: Global,
    problem: &Problem<T>,
    values: &[Value<T::Num>],
    terms: &[Term<T>],
    place: usize,
    truth: bool,
) -> Result<bool, Want>
    requires problem { ProblemFits T.Theory problem.now }
    requires values { AreValues problem.now.vars (vals_of T.denotes values.now) }
{
    for (other, term) in terms.iter().enumerate() {
        if other != place && !is_value(alloc, problem, values, term, truth)? {
            return Ok(false);
        }
    }
    Ok(true)
}

/// Whether the term has the truth, and calls no function to be found.
fn is_value<T: Theory>(
    alloc: Global,
    problem: &Problem<T>,
    values: &[Value<T::Num>],
    term: &Term<T>,
    truth: bool,
) -> Result<bool, Want>
    requires problem { ProblemFits T.Theory problem.now }
    requires values { AreValues problem.now.vars (vals_of T.denotes values.now) }
{
    match value_of(alloc, problem, values, term)? {
        Some(Value::Truth(found)) => Ok(found == truth),
        _ => Ok(false),
    }
}

/// Adds what the equality of the terms wants, where there are two, and one is a call.
fn add_equal<T: Theory>(
    alloc: Global,
    problem: &Problem<T>,
    values: &[Value<T::Num>],
    terms: &[Term<T>],
    wishes: &mut Vec<Wish<T>>,
) -> Result<(), Want>
    requires problem { ProblemFits T.Theory problem.now }
    requires values { AreValues problem.now.vars (vals_of T.denotes values.now) }
{
    if terms.len() != 2 {
        return Ok(());
    }
    if let Some(value) = value_of(alloc, problem, values, &terms[1])? {
        return add_call(alloc, problem, values, &terms[0], value, wishes);
    }
    match value_of(alloc, problem, values, &terms[0])? {
        Some(value) => add_call(alloc, problem, values, &terms[1], value, wishes),
        None => Ok(()),
    }
}

/// Adds the wish that the term has the value, where it is a call of the function to be found at arguments without such
/// calls.
fn add_call<T: Theory>(
    alloc: Global,
    problem: &Problem<T>,
    values: &[Value<T::Num>],
    term: &Term<T>,
    value: Value<T::Num>,
    wishes: &mut Vec<Wish<T>>,
) -> Result<(), Want>
    requires problem { ProblemFits T.Theory problem.now }
    requires values { AreValues problem.now.vars (vals_of T.denotes values.now) }
{
    let Term::Call(Fun::Wanted(_), arguments) = term else {
        return Ok(());
    };
    let mut tuple = Seq::new(alloc);
    let known = add_values(alloc, problem, values, arguments.as_slice(), &mut tuple)?;
    if known {
        wishes.push(Wish { tuple, value })?;
    }
    Ok(())
}

/// Adds the values of the terms up to the first that has none, and answers whether all have one.
fn add_values<T: Theory>(
    alloc: Global,
    problem: &Problem<T>,
    values: &[Value<T::Num>],
    terms: &[Term<T>],
    tuple: &mut Values<T>,
) -> Result<bool, Want>
    requires problem { ProblemFits T.Theory problem.now }
    requires values { AreValues problem.now.vars (vals_of T.denotes values.now) }
{
    for term in terms {
        match value_of(alloc, problem, values, term)? {
            Some(found) => tuple.push(found)?,
            None => return Ok(false),
        }
    }
    Ok(true)
}

/// The value of a term that calls no function to be found; `None` where it calls one, or leaves the 128 bits.
fn value_of<T: Theory>(
    alloc: Global,
    problem: &Problem<T>,
    values: &[Value<T::Num>],
    term: &Term<T>,
) -> Result<Option<Value<T::Num>>, Want>
    requires problem { ProblemFits T.Theory problem.now }
    requires values { AreValues problem.now.vars (vals_of T.denotes values.now) }
{
    let sort = term_sort(
        alloc,
        problem.defs.as_slice(),
        &[],
        problem.vars.as_slice(),
        term,
    )?;
    if sort.is_none() {
        return Ok(None);
    }
    match evaluate(alloc, &problem.defs, values, term) {
        Ok(value) => Ok(Some(value)),
        Err(Eval::Range) => Ok(None),
        Err(Eval::Want) => Err(AllocError),
    }
}
