// Copies of parts.
ghost use Rattle.std.specs.Prelude.{◌≡◌, IfOk};
ghost use Rattle.sy_grammar_base.specs.Written.{pattern_of, patterns_of};

use std::alloc::Global;
use sy_grammar_base::{Part, Parts};
use sy_terms::{Theory, Want};

/// The same part, in memory of its own.
#[cycle(copied)]
pub fn copied_part<T: Theory>(alloc: Global, part: &Part<T>) -> Result<Part<T>, Want>
    ensures { IfOk result (λ copy. pattern_of T.denotes copy ≡ pattern_of T.denotes part.now) }
{
    match part {
        Part::Const(value) => Ok(Part::Const(*value)),
        Part::Var(position) => Ok(Part::Var(*position)),
        Part::Non(nonterminal) => Ok(Part::Non(*nonterminal)),
        Part::App(operator, parts) => {
            let copies = copied_parts(alloc, parts)?;
            Ok(Part::App(*operator, copies))
        }
        Part::Call(definition, parts) => {
            let copies = copied_parts(alloc, parts)?;
            Ok(Part::Call(*definition, copies))
        }
    }
}

/// The same for a list.
#[cycle(copied)]
fn copied_parts<T: Theory>(alloc: Global, parts: &Parts<T>) -> Result<Parts<T>, Want>
    ensures { IfOk result (λ copies. patterns_of T.denotes copies.items.items ≡
        patterns_of T.denotes parts.now.items.items) }
{
    let mut copies = Parts::new(alloc);
    for part in parts.as_slice() {
        let copy = copied_part(alloc, part)?;
        copies.push(copy)?;
    }
    Ok(copies)
}
