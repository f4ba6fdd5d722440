// What a pool over integers keeps.
use std::alloc::Global;
use std::process::Abort;
use sy_meaning_integers::IntTheory;
use sy_scope_names::Pool;
use sy_terms::Value;

/// Whether each value stands once, in the order in which it came first.
pub fn is_in_order(rt: &impl Abort, alloc: Global) -> bool {
    let rows: [(&[Value<i128>], &[Value<i128>]); 4] = [
        (&[], &[]),
        (
            &[Value::Num(5), Value::Truth(true), Value::Num(5)],
            &[Value::Num(5), Value::Truth(true)],
        ),
        (
            &[Value::Num(1), Value::Num(-5), Value::Truth(true)],
            &[
                Value::Num(5),
                Value::Truth(true),
                Value::Num(1),
                Value::Num(-5),
            ],
        ),
        (
            &[Value::Num(-5), Value::Truth(false)],
            &[
                Value::Num(5),
                Value::Truth(true),
                Value::Num(1),
                Value::Num(-5),
                Value::Truth(false),
            ],
        ),
    ];
    let mut pool = Pool::<IntTheory>::new(alloc);
    let mut is_in_order = true;
    for (added, all) in rows {
        pool.add(added).expect(rt, "room");
        let values = pool.values(alloc).expect(rt, "a list");
        is_in_order &= values.as_slice() == all;
    }
    drop(pool);
    is_in_order
}
