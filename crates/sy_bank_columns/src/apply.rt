// Rows of operators at rows.
ghost use Rattle.std.specs.Prelude.{◌≡◌, ℕ, ◌<◌, true, false, IfOk, IfErr, OnOk, map, length};
ghost use Rattle.sy_terms.specs.Denoted.{IsSorted, vals_of};
ghost use Rattle.sy_terms.specs.Pairs.{ArePairsSorted, ArePairsApplied, IsFirstUnfit};
ghost use Rattle.sy_terms.specs.Theories.{fits};
ghost use Rattle.sy_bank_level.specs.Columns.{column, AreSized};
ghost use Rattle.sy_bank_columns.specs.Lent.{row_values};
ghost use Rattle.sy_bank_columns.specs.Found.{IsColumnOf, WhereLost};

use crate::ends::{RowEnd, lost_at};
use crate::lent::Row;
use std::alloc::{AllocError, Global};
use sy_terms::{Applied, Op, Theory, Value};

/// What the rows have at the place of this number, in place of what the list had.
pub fn fill<T: Theory>(
    rows: &[Row<'_, Value<T::Num>>],
    number: usize,
    count: usize,
    values: &mut Vec<Value<T::Num>>,
) -> Result<(), AllocError>
    requires sized { AreSized count (map (λ row. vals_of T.denotes (row_values row)) rows.now) }
    requires within { number < count }
    ensures { OnOk result (vals_of T.denotes values.new.items ≡
        column (map (λ row. vals_of T.denotes (row_values row)) rows.now) number) }
{
    values.clear();
    for row in rows {
        values.push(row.as_slice()[number])?;
    }
    Ok(())
}

/// The operator's values at the columns of the rows, of which each has `count` values.
pub fn applied_row<T: Theory>(
    alloc: Global,
    operator: &Op,
    rows: &[Row<'_, Value<T::Num>>],
    count: usize,
) -> Result<Vec<Value<T::Num>>, RowEnd>
    requires owned { (k : ℕ) → k < count → T.owned operator.now ≡ true }
    requires sized { AreSized count (map (λ row. vals_of T.denotes (row_values row)) rows.now) }
    requires sorted { (k : ℕ) → k < count →
        IsSorted operator.now (column (map (λ row. vals_of T.denotes (row_values row)) rows.now) k) }
    ensures ok { IfOk result (λ found. IsColumnOf operator.now
        (map (λ row. vals_of T.denotes (row_values row)) rows.now) count (vals_of T.denotes found.items)) }
    ensures lost { IfErr result (λ end. WhereLost end (λ k. (k < count) ×
        (fits operator.now (column (map (λ row. vals_of T.denotes (row_values row)) rows.now) k) ≡ false))) }
{
    let mut found = Vec::with_capacity(alloc, count)?;
    let mut values = Vec::with_capacity(alloc, rows.len())?;
    for number in 0..count {
        fill::<T>(rows, number, count, &mut values)?;
        match T::apply(operator, values.as_slice()) {
            Applied::Is(value) => found.push(value)?,
            Applied::OutOfRange => return Err(lost_at(number)),
        }
    }
    Ok(found)
}

/// The operator's values at the pairs of two rows of one length, without a list of a column's values.
pub fn pair_row<T: Theory>(
    alloc: Global,
    operator: &Op,
    first: &[Value<T::Num>],
    second: &[Value<T::Num>],
) -> Result<Vec<Value<T::Num>>, RowEnd>
    requires owned { (k : ℕ) → k < length first.now → T.owned operator.now ≡ true }
    requires same { length second.now ≡ length first.now }
    requires sorted { ArePairsSorted operator.now (vals_of T.denotes first.now) (vals_of T.denotes second.now) }
    ensures ok { IfOk result (λ found. ArePairsApplied operator.now
        (vals_of T.denotes first.now) (vals_of T.denotes second.now) (vals_of T.denotes found.items)) }
    ensures lost { IfErr result (λ end.
        WhereLost end (IsFirstUnfit operator.now (vals_of T.denotes first.now) (vals_of T.denotes second.now))) }
{
    let mut found = Vec::with_capacity(alloc, first.len())?;
    found.extend_from_slice(first)?;
    match T::apply_each(operator, found.as_mut_slice(), second) {
        None => Ok(found),
        Some(place) => Err(lost_at(place)),
    }
}
