// The tables, row by row.
use crate::{bytes, drills, lexicon, pool};
use std::process::Abort;

/// The field of this number, with bars between them; the empty text where the row has fewer.
pub fn field(row: &str, number: usize) -> &str {
    row.split('|').nth(number).unwrap_or("")
}

/// All tables: their names, what stands between rows, and these.
const TABLES: [(&str, char, &str); 7] = [
    ("sources", '\n', bytes::SOURCES),
    ("faults", '§', lexicon::FAULTS),
    ("spellings", '§', lexicon::SPELLINGS),
    ("largest texts", '\n', lexicon::LARGEST),
    ("places", '§', lexicon::PLACES),
    ("drills", '~', drills::FILES),
    ("others", '\n', OTHERS),
];

/// What stands in no table.
const OTHERS: &str = "\
a source that can't fail
sinks
a pool";

/// Whether this holds.
fn holds(rt: &(impl Abort + AllocGlobal), row: &str) -> bool {
    match row {
        "a source that can't fail" => bytes::is_sure(rt),
        "sinks" => bytes::are_written(rt),
        "a pool" => pool::is_in_order(rt, rt.alloc()),
        _ => false,
    }
}

/// Whether the row of this table is right.
fn is_right(rt: &(impl Abort + AllocGlobal), table: &str, row: &str) -> bool {
    match table {
        "sources" => bytes::is_read(rt, row),
        "faults" => lexicon::has_fault(rt, row),
        "spellings" => lexicon::is_spelled(rt, row),
        "largest texts" => lexicon::is_largest(rt, row),
        "places" => lexicon::is_placed(row),
        "drills" => drills::is_begun(rt, rt.alloc(), row),
        "others" => holds(rt, row),
        _ => false,
    }
}

#[test]
fn each_row_is_right(rt: HostRuntime) {
    for (table, separator, rows) in TABLES {
        for row in rows.split(separator) {
            assert!(rt; is_right(&rt, table, row), "{table}: {row}");
        }
    }
}
