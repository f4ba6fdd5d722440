// Values of terms that call a function to be found, with the calls that are noted, and those of terms that no file has.
ghost use Rattle.std.specs.Prelude.{◌≡◌, ◌∷◌, [], IsTrue, Some};
ghost use Rattle.sy_terms.specs.Denoted.{expr_of, vals_of, AreValid};
ghost use Rattle.sy_terms.specs.Definitions.{DefinitionsFit};
ghost use Rattle.sy_terms.specs.Fitting.{sort_in};
ghost use Rattle.sy_terms_operators.specs.Evaluation.{TermFits, FitsWith, scope_with};
ghost use Rattle.sy_meaning.specs.Signatures.{scope_and_wanted};

use crate::rows::field;
use crate::terms::{one, term, value};
use std::alloc::Global;
use std::process::Abort;
use sy_meaning::{Eval, Signature, Trace, evaluate_with, term_sort, value_sorts};
use sy_meaning_integers::IntTheory;
use sy_meaning_words::BvTheory;
use sy_terms::{Bodies, Def, Defs, Seq, Sort, Term, Theory, Value, Values, same_value};

/// Terms over the vector #x00 that call a function whose body is `bvnot`, where the definition is `bvneg`, with their
/// values and the arguments of the calls that are noted.
pub const CALLS: &str = "\
F F/1 a|8:0|8:0 8:255
ite =/2 a 8:0 F/1 a F/1 8:1|8:255|8:0 8:1
bvand F/1 a F/1 a|8:255|8:0
let/1 F/1 8:1 F/1 b|8:1|8:1 8:254
D F/1 a|8:1|8:0
";

/// Whether the sort is this one.
fn is_sort(found: Option<Sort>, sort: Sort) -> bool
    ensures { IsTrue result → found ≡ Some sort }
{
    found == Some(sort)
}

/// The term of this text, which is of the sort over one argument of that sort.
fn fitting<T: Theory>(
    rt: &impl Abort,
    alloc: Global,
    defs: &Defs<T>,
    sort: Sort,
    text: &str,
) -> Term<T>
    ensures { sort_in (scope_and_wanted T.owned defs.now []) (sort ∷ []) (expr_of T.denotes result) ≡ Some sort }
{
    let term = term::<T>(rt, alloc, text);
    let found = term_sort(alloc, defs.as_slice(), &[], &[sort], &term).expect(rt, text);
    assert!(rt; is_sort(found, sort));
    term
}

/// One definition over one argument.
fn one_definition<T: Theory>(rt: &impl Abort, alloc: Global, sort: Sort, text: &str) -> Defs<T>
    ensures { DefinitionsFit T.owned T.denotes result }
{
    let none: Defs<T> = Seq::new(alloc);
    let body = fitting::<T>(rt, alloc, &none, sort, text);
    let args = one(rt, alloc, sort);
    one(rt, alloc, Def { args, sort, body })
}

/// The values between spaces.
pub fn values<T: Theory>(rt: &impl Abort, alloc: Global, text: &str) -> Vec<Value<T::Num>> {
    let mut values = Vec::new(alloc);
    for word in text.split(' ') {
        if let Some(value) = value::<T>(word) {
            values.push(value).expect(rt, word);
        }
    }
    values
}

/// Whether the text tells the value.
fn is_told<T: Theory>(text: &str, found: &Value<T::Num>) -> bool {
    match value::<T>(text) {
        Some(value) => same_value::<T>(&value, found),
        None => false,
    }
}

/// Whether the call is one of the first function at this value.
fn is_call<T: Theory>(call: Option<(u32, &Values<T>)>, word: &str) -> bool {
    match call {
        Some((0, values)) => match values.get(0) {
            Some(value) => is_told::<T>(word, value),
            None => false,
        },
        _ => false,
    }
}

/// Whether the trace has just the calls of the first function at these values.
fn is_traced<T: Theory>(trace: &Trace<T>, calls: &str) -> bool {
    let mut count = 0usize;
    let mut are_calls = true;
    for word in calls.split_whitespace() {
        are_calls &= is_call::<T>(trace.get(count), word);
        count = count.saturating_add(1);
    }
    are_calls & (trace.len() == count)
}

/// Whether the evaluation ended as is told: by the value, or by `none` where one on the way leaves the range.
fn is_end<T: Theory>(rt: &impl Abort, ended: Result<Value<T::Num>, Eval>, told: &str) -> bool {
    match ended {
        Ok(found) => is_told::<T>(told, &found),
        Err(Eval::Range) => told == "none",
        Err(Eval::Want) => panic!(rt; "memory"),
    }
}

/// Asserts that the values are valid and that the term has a sort at them, where the function to be found takes one
/// argument of this sort and gives one.
fn assert_fitting<T: Theory>(
    rt: &impl Abort,
    alloc: Global,
    defs: &Defs<T>,
    sort: Sort,
    values: &[Value<T::Num>],
    term: &Term<T>,
)
    ensures values { AreValid T.denotes values.now }
    ensures term { TermFits (scope_with T.owned defs.now (record { takes = sort ∷ []; gives = sort } ∷
        [])) (vals_of T.denotes values.now) (expr_of T.denotes term.now) }
{
    let sorts = value_sorts::<T>(alloc, values)
        .expect(rt, "memory")
        .expect(rt, "values");
    let takes = one(rt, alloc, sort);
    let wanted = [Signature { takes, gives: sort }];
    let found = term_sort(alloc, defs.as_slice(), &wanted, sorts.as_slice(), term);
    let found = found.expect(rt, "memory");
    let Some(_) = found else {
        panic!(rt; "no sort")
    };
}

/// Whether the term has the row's value at these values where the function to be found has this body, and notes just
/// its calls.
fn gives<T: Theory>(
    rt: &impl Abort,
    alloc: Global,
    defs: &Defs<T>,
    bodies: &Bodies<T>,
    values: &[Value<T::Num>],
    term: &Term<T>,
    row: &str,
) -> bool
    requires definitions { DefinitionsFit T.owned T.denotes defs.now }
    requires values { AreValid T.denotes values.now }
    requires term { FitsWith T.owned T.denotes defs.now bodies.now
        (vals_of T.denotes values.now) (expr_of T.denotes term.now) }
{
    let mut trace = Trace::new(alloc);
    let ended = evaluate_with(alloc, defs, bodies, values, term, &mut trace);
    let is_right = is_end::<T>(rt, ended, field(row, 1)) & is_traced::<T>(&trace, field(row, 2));
    drop(trace);
    is_right
}

/// The same of the row's term at these arguments.
fn notes<T: Theory>(
    rt: &impl Abort,
    alloc: Global,
    defs: &Defs<T>,
    sort: Sort,
    body: Term<T>,
    arguments: &str,
    row: &str,
) -> bool
    requires definitions { DefinitionsFit T.owned T.denotes defs.now }
    requires body { sort_in (scope_and_wanted T.owned defs.now []) (sort ∷ []) (expr_of T.denotes body) ≡ Some sort }
{
    let bodies = one(rt, alloc, body);
    let term = term::<T>(rt, alloc, field(row, 0));
    let values = values::<T>(rt, alloc, arguments);
    let values = values.as_slice();
    assert_fitting(rt, alloc, defs, sort, values, &term);
    let is_right = gives::<T>(rt, alloc, defs, &bodies, values, &term, row);
    drop(term);
    drop(bodies);
    is_right
}

/// Whether the row has its value and notes its calls, where the definition and the body are its own.
pub fn is_noted(rt: &impl Abort, alloc: Global, row: &str) -> bool {
    let bits = Sort::Bits(8);
    let defs = one_definition::<BvTheory>(rt, alloc, bits, "bvneg a");
    let body = fitting::<BvTheory>(rt, alloc, &defs, bits, "bvnot a");
    let is_noted = notes::<BvTheory>(rt, alloc, &defs, bits, body, "8:0", row);
    drop(defs);
    is_noted
}

/// Whether the row has its value over the greatest integer and 5, and notes no call.
pub fn is_valued(rt: &impl Abort, alloc: Global, row: &str) -> bool {
    let arguments = "170141183460469231731687303715884105727 5";
    let defs = one_definition::<IntTheory>(rt, alloc, Sort::Int, "a");
    let body = fitting::<IntTheory>(rt, alloc, &defs, Sort::Int, "a");
    let is_valued = notes::<IntTheory>(rt, alloc, &defs, Sort::Int, body, arguments, row);
    drop(defs);
    is_valued
}
