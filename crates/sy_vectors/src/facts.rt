// Small queries, with what facts say of each.
use crate::forms::form;
use crate::queries::{INTEGERS, query};
use crate::rows::field;
use std::alloc::Global;
use std::process::Abort;
use sy_linear::{Fact, Known, Path, Test, is_numbered, known};
use sy_meaning_integers::IntTheory;
use sy_terms::{Seq, Want};

/// Facts with semicolons between them: `B` where the second variable is true, `!B` where it is false, or a form that is
/// at least 0.
fn path(rt: &impl Abort, alloc: Global, text: &str) -> Path {
    let mut facts = Seq::new(alloc);
    if text.is_empty() {
        return Path { facts };
    }
    for part in text.split(';') {
        facts
            .push(match part {
                "B" => Fact::Is(1, true),
                "!B" => Fact::Is(1, false),
                _ => Fact::AtLeast(form(rt, alloc, part)),
            })
            .expect(rt, "memory");
    }
    Path { facts }
}

/// What is known of a query over an integer and a truth value: of an open test the first coefficient and the constant.
pub fn told(rt: &impl Abort, alloc: Global, row: &str) -> Result<String, Want> {
    let path = path(rt, alloc, field(row, 0));
    let query = query::<IntTheory>(rt, alloc, INTEGERS, "ib", field(row, 1));
    assert!(rt; is_numbered(&query));
    let known = known(alloc, &query, &path).expect(rt, "memory");
    drop(query);
    let told = match &known {
        Known::True => String::from_str(alloc, "true"),
        Known::False => String::from_str(alloc, "false"),
        Known::Undecided(Test::Holds(variable)) => format!(in alloc; "holds {variable}"),
        Known::Undecided(Test::AtLeast(form)) => {
            let first = form.coefs.get(0).map(|pair| pair.1).unwrap_or(0);
            let constant = form.constant;
            format!(in alloc; "{first} {constant}")
        }
        Known::OutOfRange(node) => format!(in alloc; "range {node}"),
    };
    drop(known);
    told
}

/// Facts, a body, and what they tell of it.
pub const ROWS: &str = "\
|&L1*2AL*2A1|2 -1
2:0 -1|&L1*2AL*2A1|-2 1
2:0 -1;-2:0 1|&L1*2AL*2A1|true
-2:0 0|&L1*2AL*2A1|false
|&LA0L1A|-1 0
|l+A1LC3|-1 2
|&BL+MMA|range 3
|LNm|true
|LN0|range 0
|?BLA0L0A|holds 1
B|?BLA0L0A|-1 0
!B|?BLA0L0A|1 0
";
