// The row of a rule's part, from those of kept terms.
ghost use Rattle.std.specs.Prelude.{
  ◌≡◌,
  ℕ,
  ◌<◌,
  ◌≤◌,
  true,
  [],
  ◌∷◌,
  All,
  IfOk,
  IfErr,
  length,
  map,
  slice_get,
  Some,
  replicate,
  List,
};
ghost use Rattle.sy_terms.specs.Values.{Val};
ghost use Rattle.sy_terms.specs.Expr.{Apply};
ghost use Rattle.sy_terms.specs.Denoted.{val_of, vals_of};
ghost use Rattle.sy_terms.specs.Theories.{valid};
ghost use Rattle.sy_terms.specs.Meaning.{functions, value_at_position};
ghost use Rattle.sy_terms.specs.declared.sort.Value.{Value};
ghost use Rattle.sy_terms.specs.Definitions.{DefinitionsFit, scope_of, bodies};
ghost use Rattle.sy_grammar_base.specs.Patterns.{occurring, all_occurring, filled, all_filled};
ghost use Rattle.sy_grammar_base.specs.Written.{pattern_of, patterns_of};
ghost use Rattle.sy_bank_level.specs.Rows.{IsLostAt};
ghost use Rattle.sy_bank_level.specs.Covering.{terms};
ghost use Rattle.sy_bank_level.specs.Columns.{FitsAt, FitAt, HasRow, HaveRows};
ghost use Rattle.sy_bank_level.specs.Stored.{chosen_of};
ghost use Rattle.sy_bank_level.specs.Chosen.{AreRows, ArePoints};
ghost use Rattle.sy_bank_columns.specs.Lent.{row_values};
ghost use Rattle.sy_bank_columns.specs.Found.{WhereLost, IsOneLostAt};

use crate::apply::{applied_row, pair_row};
use crate::call::called_row;
use crate::ends::RowEnd;
use crate::lent::Row;
use std::alloc::{AllocError, Global};
use sy_bank_level::{Kept, places};
use sy_grammar_base::{Part, Parts};
use sy_terms::{Defs, Op, Theory, Value, Values};

/// A value for each point, all alike.
fn repeated<N: Copy>(alloc: Global, value: N, count: usize) -> Result<Vec<N>, AllocError>
    ensures { IfOk result (λ row. row.items ≡ replicate count value) }
{
    let mut row = Vec::with_capacity(alloc, count)?;
    for _ in 0..count {
        row.push(value)?;
    }
    Ok(row)
}

/// The argument of this number at each point.
fn argument_row<T: Theory>(
    alloc: Global,
    points: &[Values<T>],
    position: usize,
) -> Result<Vec<Value<T::Num>>, AllocError>
    requires { (k : ℕ) (point : List (Value T.Num)) → slice_get points.now k ≡ Some point → position < length point }
    ensures { IfOk result (λ row. vals_of T.denotes row.items ≡
        map (λ point. value_at_position (vals_of T.denotes point) position) points.now) }
{
    let mut row = Vec::with_capacity(alloc, points.len())?;
    for point in points {
        row.push(point.as_slice()[position])?;
    }
    Ok(row)
}

/// The row of the term that the part becomes where the chosen terms stand for its nonterminals, from left to right.
/// `Lost` exactly where that term isn't computable at the point of the number that it carries.
#[cycle(row)]
pub fn part_row<'a, T: Theory>(
    alloc: Global,
    defs: &Defs<T>,
    points: &[Values<T>],
    part: &Part<T>,
    chosen: &[&'a Kept<T>],
) -> Result<Row<'a, Value<T::Num>>, RowEnd>
    requires definitions { DefinitionsFit T.owned T.denotes defs.now }
    requires points { ArePoints (map (vals_of T.denotes) points.now) }
    requires rows { AreRows (scope_of T.owned defs.now)
        (functions (bodies T.denotes defs.now)) (map (vals_of T.denotes) points.now) (chosen_of T.denotes chosen.now) }
    requires enough { length (occurring (pattern_of T.denotes part.now)) ≤ length chosen.now }
    requires fits { FitsAt (scope_of T.owned defs.now) (map (vals_of T.denotes) points.now)
        (filled (pattern_of T.denotes part.now) (terms (chosen_of T.denotes chosen.now))) }
    ensures ok { IfOk result (λ row. HasRow (scope_of T.owned defs.now) (functions (bodies T.denotes defs.now))
        (map (vals_of T.denotes) points.now) (filled (pattern_of T.denotes part.now)
        (terms (chosen_of T.denotes chosen.now))) (vals_of T.denotes (row_values row))) }
    ensures lost { IfErr result (λ end. WhereLost end (IsLostAt (functions (bodies T.denotes defs.now)) (map (vals_of
        T.denotes) points.now) (filled (pattern_of T.denotes part.now) (terms (chosen_of T.denotes chosen.now))))) }
{
    match part {
        Part::Const(value) => {
            let row = repeated(alloc, *value, points.len())?;
            Ok(Row::Own(row))
        }
        Part::Var(position) => {
            let row = argument_row::<T>(alloc, points, *position as usize)?;
            Ok(Row::Own(row))
        }
        Part::Non(_) => Ok(Row::Lent(chosen[0].row.as_slice())),
        Part::App(operator, parts) => match parts.as_slice() {
            [first, second] => {
                let row = part_pair(alloc, defs, points, operator, first, second, chosen)?;
                Ok(Row::Own(row))
            }
            _ => match part_rows(alloc, defs, points, parts, chosen) {
                Ok(rows) => {
                    let row = applied_row::<T>(alloc, operator, rows.as_slice(), points.len())?;
                    Ok(Row::Own(row))
                }
                Err(end) => Err(end),
            },
        },
        Part::Call(definition, parts) => match part_rows(alloc, defs, points, parts, chosen) {
            Ok(rows) => {
                let row = called_row(alloc, defs, *definition, rows.as_slice(), points.len())?;
                Ok(Row::Own(row))
            }
            Err(end) => Err(end),
        },
    }
}

/// The row of the operator at two parts, from their rows at once.
#[cycle(row)]
fn part_pair<'a, T: Theory>(
    alloc: Global,
    defs: &Defs<T>,
    points: &[Values<T>],
    operator: &Op,
    first: &Part<T>,
    second: &Part<T>,
    chosen: &[&'a Kept<T>],
) -> Result<Vec<Value<T::Num>>, RowEnd>
    requires definitions { DefinitionsFit T.owned T.denotes defs.now }
    requires points { ArePoints (map (vals_of T.denotes) points.now) }
    requires rows { AreRows (scope_of T.owned defs.now)
        (functions (bodies T.denotes defs.now)) (map (vals_of T.denotes) points.now) (chosen_of T.denotes chosen.now) }
    requires enough { length (all_occurring (patterns_of T.denotes (first.now ∷ second.now ∷ []))) ≤ length chosen.now }
    requires fits { FitsAt (scope_of T.owned defs.now) (map (vals_of T.denotes) points.now) (Apply operator.now
        (all_filled (patterns_of T.denotes (first.now ∷ second.now ∷ [])) (terms (chosen_of T.denotes chosen.now)))) }
    ensures ok { IfOk result (λ row. HasRow (scope_of T.owned defs.now) (functions (bodies T.denotes defs.now))
        (map (vals_of T.denotes) points.now) (Apply operator.now (all_filled (patterns_of T.denotes (first.now ∷
        second.now ∷ [])) (terms (chosen_of T.denotes chosen.now)))) (vals_of T.denotes row.items)) }
    ensures lost { IfErr result (λ end. WhereLost end
        (IsLostAt (functions (bodies T.denotes defs.now)) (map (vals_of T.denotes) points.now) (Apply operator.now
        (all_filled (patterns_of T.denotes (first.now ∷ second.now ∷ [])) (terms (chosen_of T.denotes chosen.now)))))) }
{
    let (_, rest) = chosen.split_at(places(first, chosen.len()));
    let left = part_row(alloc, defs, points, first, chosen)?;
    let right = part_row(alloc, defs, points, second, rest)?;
    let row = pair_row::<T>(alloc, operator, left.as_slice(), right.as_slice())?;
    Ok(row)
}

/// The rows of the parts, one after the other.
#[cycle(row)]
fn part_rows<'a, T: Theory>(
    alloc: Global,
    defs: &Defs<T>,
    points: &[Values<T>],
    parts: &Parts<T>,
    chosen: &[&'a Kept<T>],
) -> Result<Vec<Row<'a, Value<T::Num>>>, RowEnd>
    requires definitions { DefinitionsFit T.owned T.denotes defs.now }
    requires points { ArePoints (map (vals_of T.denotes) points.now) }
    requires rows { AreRows (scope_of T.owned defs.now)
        (functions (bodies T.denotes defs.now)) (map (vals_of T.denotes) points.now) (chosen_of T.denotes chosen.now) }
    requires enough { length (all_occurring (patterns_of T.denotes parts.now.items.items)) ≤ length chosen.now }
    requires fit { FitAt (scope_of T.owned defs.now) (map (vals_of T.denotes) points.now)
        (all_filled (patterns_of T.denotes parts.now.items.items) (terms (chosen_of T.denotes chosen.now))) }
    ensures ok { IfOk result (λ rows. HaveRows (scope_of T.owned defs.now) (functions (bodies T.denotes defs.now))
        (map (vals_of T.denotes) points.now) (all_filled (patterns_of T.denotes parts.now.items.items)
        (terms (chosen_of T.denotes chosen.now))) (map (λ row. vals_of T.denotes (row_values row)) rows.items)) }
    ensures lost { IfErr result (λ end.
        WhereLost end (IsOneLostAt (functions (bodies T.denotes defs.now)) (map (vals_of T.denotes) points.now)
        (all_filled (patterns_of T.denotes parts.now.items.items) (terms (chosen_of T.denotes chosen.now))))) }
{
    let mut rows = Vec::with_capacity(alloc, parts.len())?;
    let count = chosen.len();
    let mut used = 0usize;
    for part in parts.as_slice() {
        let (_, rest) = chosen.split_at(used);
        match part_row(alloc, defs, points, part, rest) {
            Ok(row) => rows.push(row)?,
            Err(end) => return Err(end),
        }
        used += places(part, count - used);
    }
    Ok(rows)
}
