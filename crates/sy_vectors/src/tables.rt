// The tables, row by row.
use crate::{
    answers, clauses, conditions, cuts, defaults, evaluation, facts, forms, fractions, gates,
    grammars, integer_answers, integers, joins, lowerings, measures, operators, sorts, trees,
    words,
};
use std::alloc::Global;
use std::process::Abort;
use sy_meaning_integers::IntTheory;
use sy_meaning_words::BvTheory;

/// All tables with their names.
const TABLES: [(&str, &str); 24] = [
    ("gates", gates::ROWS),
    ("measures of integers", measures::INTEGERS),
    ("measures of vectors", measures::VECTORS),
    ("calls", evaluation::CALLS),
    ("calls", words::ROWS),
    ("integers", integers::ROWS),
    ("integers", integers::NAMED),
    ("grammars", grammars::CASES),
    ("default grammars", defaults::ROWS),
    ("joins", joins::ROWS),
    ("formulas", clauses::FORMULAS),
    ("logs", clauses::LOGS),
    ("queries", answers::ROWS),
    ("queries of each width", answers::THEMSELVES),
    ("fractions", fractions::ROWS),
    ("forms", forms::ROWS),
    ("systems", forms::SYSTEMS),
    ("facts", facts::ROWS),
    ("trees", trees::ROWS),
    ("cuts", cuts::ROWS),
    ("queries over integers", integer_answers::ROWS),
    ("lowered queries", lowerings::ROWS),
    ("others", OTHERS),
    ("sorts", SORTS),
];

/// What stands in no table.
const OTHERS: &str = "\
an invariant's conditions
no nonterminal
a default grammar's choice
gates of a large table
a scattered chain
a chain by one line
a chain by many lines
forms by calls
";

/// What stands in no table of operators and sorts.
const SORTS: &str = "\
operators are spelled as in files
operators are told apart by their indices
sorts of operators
numbers of sorts
";

/// Whether this holds of operators and sorts.
fn holds_of_sorts(row: &str) -> bool {
    match row {
        "operators are spelled as in files" => operators::are_spelled(),
        "operators are told apart by their indices" => sorts::are_told_apart(),
        "sorts of operators" => sorts::are_found(),
        "numbers of sorts" => sorts::are_numbered(),
        _ => false,
    }
}

/// Whether this holds.
fn holds(rt: &impl Abort, alloc: Global, row: &str) -> bool {
    match row {
        "an invariant's conditions" => conditions::are_expanded(rt, alloc),
        "no nonterminal" => !grammars::does_nothing_fit(alloc),
        "a default grammar's choice" => defaults::byte_chooses(rt, alloc),
        "gates of a large table" => gates::is_made_once(rt, alloc),
        "a scattered chain" => clauses::refutes_scattered(rt, alloc),
        "a chain by one line" => clauses::refutes_ordered(rt, alloc, true),
        "a chain by many lines" => clauses::refutes_ordered(rt, alloc, false),
        "forms by calls" => forms::are_built(rt, alloc),
        _ => false,
    }
}

/// Whether the row of this table ends with what its other fields give, where it is one over linear forms and integers.
fn is_told(rt: &impl Abort, alloc: Global, table: &str, row: &str) -> bool {
    let (start, wanted) = row.rsplit_once('|').unwrap_or(("", ""));
    let told = match table {
        "fractions" => fractions::told(alloc, start),
        "forms" => forms::told(rt, alloc, start),
        "systems" => forms::answer(rt, alloc, start),
        "facts" => facts::told(rt, alloc, start),
        "trees" => trees::told(rt, alloc, start),
        _ => return cuts::is_right(rt, alloc, start, wanted),
    };
    told.expect(rt, "memory").as_str() == wanted
}

/// Whether the row of this table is right.
fn is_right(rt: &impl Abort, alloc: Global, table: &str, row: &str) -> bool {
    match table {
        "gates" => gates::is_right(rt, alloc, row),
        "measures of integers" => {
            measures::is_right::<IntTheory>(rt, alloc, measures::INTEGERS, row)
        }
        "measures of vectors" => measures::is_right::<BvTheory>(rt, alloc, measures::VECTORS, row),
        "calls" => evaluation::is_noted(rt, alloc, row),
        "integers" => evaluation::is_valued(rt, alloc, row),
        "grammars" => grammars::is_right_of_sort(rt, alloc, row),
        "default grammars" => defaults::is_right(rt, alloc, row),
        "joins" => joins::is_right(rt, alloc, row),
        "formulas" => clauses::is_found(rt, alloc, row),
        "logs" => clauses::is_right(rt, alloc, row),
        "queries" => answers::is_right(rt, alloc, row),
        "queries of each width" => answers::is_plain(rt, alloc, row),
        "queries over integers" => integer_answers::is_right(rt, alloc, row),
        "lowered queries" => lowerings::is_right(rt, alloc, row),
        "others" => holds(rt, alloc, row),
        "sorts" => holds_of_sorts(row),
        _ => is_told(rt, alloc, table, row),
    }
}

#[test]
fn each_row_is_right(rt: HostRuntime) {
    for (table, rows) in TABLES {
        for row in rows.lines() {
            assert!(rt; is_right(&rt, rt.alloc(), table, row), "{table}: {row}");
        }
    }
}
