// The rows of all tables.
use crate::rows::field;
use crate::{banks, combinations, formulas, part_rows, pointwise, refutations, shared_terms};
use std::alloc::Global;
use std::process::Abort;
use sy_meaning_integers::IntTheory;
use sy_meaning_words::BvTheory;
use sy_terms::Sort;

/// All tables. The first field of a row says what it is about.
const TABLES: [&str; 7] = [
    banks::INTEGERS,
    banks::VECTORS,
    banks::BYTES,
    combinations::ROWS,
    formulas::ROWS,
    pointwise::ROWS,
    refutations::ROWS,
];

/// Whether the row is right.
fn is_right(rt: &impl Abort, alloc: Global, row: &str) -> bool {
    match field(row, 0) {
        "bank of integers" => banks::is_right::<IntTheory>(rt, alloc, Sort::Int, "7 -6", row),
        "bank of four bits" => banks::is_right::<BvTheory>(rt, alloc, Sort::Bits(4), "", row),
        "bank of bytes" => banks::is_right::<BvTheory>(rt, alloc, Sort::Bits(8), "", row),
        "combination" => combinations::is_right(rt, alloc, row),
        "formula" => formulas::is_right(rt, alloc, row),
        "pointwise" => pointwise::is_right(rt, alloc, row),
        "refutation" => refutations::is_right(rt, alloc, row),
        _ => false,
    }
}

#[test]
fn each_row_is_right(rt: HostRuntime) {
    for table in TABLES {
        for row in table.lines() {
            assert!(rt; is_right(&rt, rt.alloc(), row), "{row}");
        }
    }
    part_rows::assert_rows::<IntTheory>(&rt, rt.alloc(), 1, 5);
    assert!(rt; shared_terms::are_written(&rt, rt.alloc()));
}
