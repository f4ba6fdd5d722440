// What chain rules make of kept terms.
ghost use Rattle.std.specs.Prelude.{◌≡◌, IfOk};
ghost use Rattle.sy_bank_level.specs.Stored.{entry_of};
ghost use Rattle.sy_bank.specs.Passing as spec;

use std::alloc::Global;
use std::rc::Rc;
use sy_bank_level::{Grown, Growns, Kept};
use sy_grammar_base::Part;
use sy_terms::{Theory, Want, copied_values};

/// The rule of this number of a nonterminal, which is the other nonterminal alone.
#[derive(Clone, Copy)]
pub struct Chain {
    pub nonterminal: u32,
    pub number: u32,
    pub to: u32,
}

/// The kept term, derived by the chain rule.
pub fn chained<T: Theory>(alloc: Global, chain: &Chain, kept: &Kept<T>) -> Result<Kept<T>, Want>
    ensures { IfOk result (λ passed. entry_of T.denotes passed ≡
        spec.chained chain.now.number (entry_of T.denotes kept.now)) }
{
    let part = Rc::new(alloc, Part::Non(chain.to))?;
    let mut passed = Growns::with_capacity(alloc, 1)?;
    passed.push(kept.grown.clone()?)?;
    Ok(Kept {
        grown: Rc::new(alloc, Grown::Filled(chain.number, part, passed))?,
        size: kept.size,
        row: copied_values::<T>(alloc, kept.row.as_slice())?,
    })
}
