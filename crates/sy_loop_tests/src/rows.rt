// Rows of tables, whose fields have bars between them, and lists of one item.
ghost use Rattle.std.specs.Prelude.{◌≡◌, ◌∷◌, []};

use std::alloc::Global;
use std::process::Abort;
use sy_terms::Seq;

/// The field of this number; the empty text where the row has fewer.
pub(crate) fn field(row: &str, number: usize) -> &str {
    row.split('|').nth(number).unwrap_or("")
}

/// The number that a field has; 0 where it has none.
pub(crate) fn number(row: &str, number: usize) -> u32 {
    field(row, number).parse().unwrap_or(0)
}

/// The item alone.
pub(crate) fn one<X: Drop>(rt: &impl Abort, alloc: Global, item: X) -> Seq<X>
    ensures { result ≡ item ∷ [] }
{
    let mut items = Seq::new(alloc);
    items.push(item).expect(rt, "memory");
    items
}
