// The sizes of an invariant's conditions over integers.
use std::alloc::Global;
use std::process::Abort;
use sy_inv::expand;
use sy_meaning_integers::IntTheory;

/// Whether the conditions over one variable have their sizes.
pub fn are_expanded(rt: &impl Abort, alloc: Global) -> bool {
    let three = expand::<IntTheory>(alloc, 1, 0, 1, 2, 0, 3).expect(rt, "conditions");
    let starts = three.starts.size(100);
    let keeps = three.keeps.size(100);
    let ends = three.ends.size(100);
    drop(three);
    (starts == 5) & (keeps == 9) & (ends == 5)
}
