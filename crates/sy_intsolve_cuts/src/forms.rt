// The forms of a path.
ghost use Rattle.std.specs.Prelude.{◌≡◌, IfOk};
ghost use Rattle.sy_linear_known.specs.Trees.{forms};

use std::alloc::Global;
use sy_linear_known::{Fact, Form};
use sy_seq::{Seq, Want};

/// Copies of the forms among the facts, in order. `Want` comes where memory runs out, and nowhere else.
pub fn forms_of(alloc: Global, facts: &[Fact]) -> Result<Seq<Form>, Want>
    ensures { IfOk result (λ all. all ≡ forms facts.now) }
{
    let mut all = Seq::new(alloc);
    for fact in facts {
        if let Fact::AtLeast(form) = fact {
            let copy = form.copy(alloc)?;
            all.push(copy)?;
        }
    }
    Ok(all)
}
