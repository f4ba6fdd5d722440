// Rows of parts over a few kept terms at two points.
ghost use Rattle.std.specs.Prelude.{◌≡◌, ◌∷◌, [], map, IsTrue, Some};
ghost use Rattle.sy_terms.specs.Denoted.{vals_of, expr_of};
ghost use Rattle.sy_terms.specs.Definitions.{DefinitionsFit, scope_of, bodies};
ghost use Rattle.sy_terms.specs.Meaning.{functions};
ghost use Rattle.sy_terms.specs.declared.sort.Sort.TheVariants as sorts;
ghost use Rattle.sy_bank_level.specs.Columns.{HasRow};
ghost use Rattle.sy_bank.specs.Rows.{ArePointsOf};
ghost use Rattle.sy_bank.specs.Stored.{entry_of, chosen_of};
ghost use Rattle.sy_bank_level.specs.Chosen.{AreRows};
ghost use Rattle.sy_loop_tests.specs.Integers.{IsInteger};

use crate::parts::{cut, part};
use crate::points::points;
use crate::rows::one;
use std::alloc::Global;
use std::process::Abort;
use std::rc::Rc;
use sy_bank::{chosen_part, grown};
use sy_bank_columns::{RowEnd, part_row, term_row};
use sy_bank_level::{Grown, Kept, filled_part};
use sy_grammar_base::{Derivation, Part};
use sy_meaning::term_sort;
use sy_terms::{Def, Defs, Seq, Sort, Term, Theory, Value, Values};

/// Whether the sort is that of integers.
fn is_int(found: Option<Sort>) -> bool
    ensures { IsTrue result → found ≡ Some sorts.Int }
{
    found == Some(Sort::Int)
}

/// Whether the term is an integer over one integer.
fn is_integer<T: Theory>(rt: &impl Abort, alloc: Global, defs: &Defs<T>, term: &Term<T>) -> bool
    ensures { IsTrue result → IsInteger (scope_of T.owned defs.now) (expr_of T.denotes term.now) }
{
    let found = term_sort(alloc, defs.as_slice(), &[], &[Sort::Int], term).expect(rt, "memory");
    is_int(found)
}

/// The definition of the next number.
fn definition<T: Theory>(rt: &impl Abort, alloc: Global) -> Defs<T>
    ensures { DefinitionsFit T.owned T.denotes result }
{
    let none: Defs<T> = Seq::new(alloc);
    let part = part::<T>(rt, alloc, Sort::Int, "+x1");
    let nothing = Vec::new(alloc);
    let body = filled_part(alloc, &part, nothing.as_slice()).expect(rt, "memory");
    drop(part);
    assert!(rt; is_integer(rt, alloc, &none, &body));
    let sort = Sort::Int;
    let args = one(rt, alloc, sort);
    one(rt, alloc, Def { args, sort, body })
}

/// The term with its row.
fn kept<T: Theory>(
    rt: &impl Abort,
    alloc: Global,
    defs: &Defs<T>,
    points: &[Values<T>],
    term: Term<T>,
) -> Kept<T>
    requires definitions { DefinitionsFit T.owned T.denotes defs.now }
    requires points { ArePointsOf (sorts.Int ∷ []) (map (vals_of T.denotes) points.now) }
    ensures { HasRow (scope_of T.owned defs.now) (functions (bodies T.denotes defs.now))
        (map (vals_of T.denotes) points.now) (entry_of T.denotes result).term (entry_of T.denotes result).row }
{
    assert!(rt; is_integer(rt, alloc, defs, &term));
    let row = term_row(alloc, defs, points, &term).expect(rt, "a row");
    let grown = Rc::new(alloc, Grown::Leaf(term, Derivation::Variable(0, 0))).expect(rt, "memory");
    Kept {
        grown,
        size: 1,
        row: Seq::from(row),
    }
}

/// Whether the part has this row where these terms are chosen, or is `lost` at the second point.
fn has_row<T: Theory>(
    rt: &impl Abort,
    alloc: Global,
    defs: &Defs<T>,
    points: &[Values<T>],
    part: &Part<T>,
    chosen: &[&Kept<T>],
    told: &str,
) -> bool
    requires definitions { DefinitionsFit T.owned T.denotes defs.now }
    requires points { ArePointsOf (sorts.Int ∷ []) (map (vals_of T.denotes) points.now) }
    requires rows { AreRows (scope_of T.owned defs.now)
        (functions (bodies T.denotes defs.now)) (map (vals_of T.denotes) points.now) (chosen_of T.denotes chosen.now) }
{
    let Err(_) = part.occurrence(chosen.len()) else {
        return false;
    };
    let term = chosen_part(alloc, part, chosen).expect(rt, told);
    assert!(rt; is_integer(rt, alloc, defs, &term));
    drop(term);
    let found = part_row(alloc, defs, points, part, chosen);
    let is_told = match &found {
        Ok(row) => are_numbers::<T>(row.as_slice(), told),
        Err(RowEnd::Lost(point)) => told == "lost" && *point == 1,
        Err(RowEnd::Want) => panic!(rt; "memory"),
    };
    drop(found);
    is_told
}

/// Whether the values are the numbers between spaces.
fn are_numbers<T: Theory>(values: &[Value<T::Num>], told: &str) -> bool {
    let mut count = 0usize;
    for word in told.split(' ') {
        let Some(Value::Num(number)) = values.get(count) else {
            return false;
        };
        if T::number(*number) != word.parse().unwrap_or(0) {
            return false;
        }
        count = count.saturating_add(1);
    }
    values.len() == count
}

/// Whether what is grown of the chosen terms by rule 4 is the part's term, with a derivation for each of them.
fn is_grown<T: Theory>(rt: &impl Abort, alloc: Global, part: Part<T>, chosen: &[&Kept<T>]) -> bool {
    let term = chosen_part(alloc, &part, chosen).expect(rt, "memory");
    let part = Rc::new(alloc, part).expect(rt, "memory");
    let kept = Kept {
        grown: grown(alloc, 4, &part, chosen).expect(rt, "memory"),
        size: 1,
        row: Seq::new(alloc),
    };
    let derivation = kept.derivation(alloc).expect(rt, "memory");
    let is_derived = match &derivation {
        Derivation::Node(4, children) => children.as_slice().len() == chosen.len(),
        _ => false,
    };
    drop(derivation);
    let copy = kept.term(alloc).expect(rt, "memory");
    drop(kept);
    let is_same = copy.equals(&term);
    drop(copy);
    drop(term);
    is_derived && is_same
}

/// Parts with their rows, where the argument, 1 and 5 are chosen, and the argument is 3 or the greatest number.
const ROWS: &str = "\
7|7 7
x|3 170141183460469231731687303715884105727
A|3 170141183460469231731687303715884105727
!A|-3 -170141183460469231731687303715884105727
-AA|2 170141183460469231731687303715884105726
+AA|lost
+-A7A|-3 170141183460469231731687303715884105721
-7DA|lost
-DAA|lost
#!AAA|3 -170141183460469231731687303715884105721
#AAA|lost
D!A|-2 -170141183460469231731687303715884105726
DA|lost";

/// Whether the row's part has it, and is grown.
fn is_right<T: Theory>(
    rt: &impl Abort,
    alloc: Global,
    defs: &Defs<T>,
    points: &[Values<T>],
    chosen: &[&Kept<T>],
    row: &str,
) -> bool
    requires definitions { DefinitionsFit T.owned T.denotes defs.now }
    requires points { ArePointsOf (sorts.Int ∷ []) (map (vals_of T.denotes) points.now) }
    requires rows { AreRows (scope_of T.owned defs.now)
        (functions (bodies T.denotes defs.now)) (map (vals_of T.denotes) points.now) (chosen_of T.denotes chosen.now) }
{
    let (text, told) = cut(row);
    let part = part::<T>(rt, alloc, Sort::Int, text);
    let has_row = has_row(rt, alloc, defs, points, &part, chosen, told);
    let is_grown = is_grown(rt, alloc, part, chosen);
    has_row & is_grown
}

/// Asserts that each row is right at the points 3 and the greatest number, where the definition gives the next number.
pub(crate) fn assert_rows<T: Theory>(rt: &impl Abort, alloc: Global, one: T::Num, five: T::Num) {
    let numbers = "3 170141183460469231731687303715884105727";
    let points = points::<T>(rt, alloc, Sort::Int, numbers);
    let points = points.as_slice();
    let defs = definition::<T>(rt, alloc);
    let argument = kept::<T>(rt, alloc, &defs, points, Term::Var(0));
    let one = kept::<T>(rt, alloc, &defs, points, Term::Const(Value::Num(one)));
    let five = kept::<T>(rt, alloc, &defs, points, Term::Const(Value::Num(five)));
    let chosen = [&argument, &one, &five];
    for row in ROWS.lines() {
        assert!(rt; is_right(rt, alloc, &defs, points, &chosen, row), "{row}");
    }
}
