// Copies of names.
ghost use Rattle.std.specs.Prelude.{◌≡◌, IfOk};

use std::alloc::{AllocError, Global};
use sy_text_items::Name;

/// A copy of a name.
pub fn copied(alloc: Global, name: &Name) -> Result<Name, AllocError>
    ensures { IfOk result (λ copy. copy ≡ name.now) }
{
    let mut copy = Name::new(alloc);
    for byte in name.as_slice() {
        copy.push(*byte)?;
    }
    Ok(copy)
}
