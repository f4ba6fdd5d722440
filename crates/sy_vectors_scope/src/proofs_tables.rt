// The tables, row by row.
use crate::{clauses, texts};
use std::alloc::Global;
use std::process::Abort;

/// All tables: their names, and these.
const TABLES: [(&str, &str); 6] = [
    ("logs", texts::LOGS),
    ("no logs", texts::NO_LOGS),
    ("trees", texts::TREES),
    ("no trees", texts::NO_TREES),
    ("clauses", clauses::CLAUSES),
    ("others", OTHERS),
];

/// What stands in no table.
const OTHERS: &str = "\
a resolution";

/// Whether this holds.
fn holds(rt: &impl Abort, alloc: Global, row: &str) -> bool {
    match row {
        "a resolution" => clauses::is_resolved(rt, alloc),
        _ => false,
    }
}

/// Whether the row of this table is right.
fn is_right(rt: &impl Abort, alloc: Global, table: &str, row: &str) -> bool {
    match table {
        "logs" => texts::is_log(rt, alloc, row),
        "no logs" => texts::is_no_log(rt, alloc, row),
        "trees" => texts::is_tree(rt, alloc, row),
        "no trees" => texts::is_no_tree(rt, alloc, row),
        "clauses" => clauses::are_written(rt, alloc, row),
        "others" => holds(rt, alloc, row),
        _ => false,
    }
}

#[test]
fn each_row_is_right(rt: HostRuntime) {
    for (table, rows) in TABLES {
        for row in rows.split('§') {
            assert!(rt; is_right(&rt, rt.alloc(), table, row), "{table}: {row}");
        }
    }
}
