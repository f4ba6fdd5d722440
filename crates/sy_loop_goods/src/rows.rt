// Rows of truth values from columns.
ghost use Rattle.std.specs.Prelude.{◌≡◌, ◌<◌, ℕ, IfOk, false, length, slice_index_or, []};
ghost use Rattle.sy_loop_goods.specs.Columns.{row_from};

use std::alloc::Global;
use sy_terms::{Seq, Want};

/// So many rows: what stands in the columns at each place.
pub(crate) fn transposed(
    alloc: Global,
    columns: &[Seq<bool>],
    count: usize,
) -> Result<Seq<Seq<bool>>, Want>
    ensures many { IfOk result (λ rows. length rows ≡ count) }
    ensures rows { IfOk result (λ rows. (place : ℕ) → place < count →
        slice_index_or rows place [] ≡ row_from columns.now place) }
{
    let mut rows = Seq::new(alloc);
    for place in 0..count {
        let row = row_of(alloc, columns, place)?;
        rows.push(row)?;
    }
    Ok(rows)
}

/// What stands in the columns at the place.
fn row_of(alloc: Global, columns: &[Seq<bool>], place: usize) -> Result<Seq<bool>, Want>
    ensures { IfOk result (λ row. row ≡ row_from columns.now place) }
{
    let mut row = Seq::new(alloc);
    for column in columns {
        row.push(value_at(column, place))?;
    }
    Ok(row)
}

/// What stands in the column at the place; false past its end.
fn value_at(column: &Seq<bool>, place: usize) -> bool
    ensures { result ≡ slice_index_or column.now place false }
{
    match column.get(place) {
        Some(value) => *value,
        None => false,
    }
}
