// The step that a rule makes.
ghost use Rattle.std.specs.Prelude.{◌≡◌, ◌<◌, ◌^◌, length, map, MatchOption, IfOk};
ghost use Rattle.sy_terms.specs.Denoted.{expr_of};
ghost use Rattle.sy_grammar_base.specs.Grown.{production_of};
ghost use Rattle.sy_grammar.specs.Noted.{notes_of};
ghost use Rattle.sy_grammar.specs.Rows.{Makes, MakesNone, IsMadeBy, IsMadeByNone};

use crate::constants::{constant_of, variable_of};
use crate::fill::fill;
use crate::note::Note;
use crate::step::Step;
use std::alloc::{AllocError, Global};
use sy_grammar_base::Rule;
use sy_terms::{Sort, Term, Theory};

/// The step by which the rule of this number derives the term; `None` exactly where it doesn't.
fn step_by<T: Theory>(
    alloc: Global,
    arguments: &[Sort],
    number: u32,
    rule: &Rule<T>,
    term: &Term<T>,
    row: &[Option<usize>],
    below: &[Note],
) -> Result<Option<Step<T>>, AllocError>
    ensures { IfOk result (λ made. MatchOption made
        (MakesNone arguments.now (expr_of T.denotes term.now) row.now
        (notes_of below.now) (production_of T.denotes rule.now))
        (λ step. Makes T.denotes arguments.now number (expr_of T.denotes term.now) row.now
        (notes_of below.now) (production_of T.denotes rule.now) step)) }
{
    match rule {
        Rule::Term(part) => {
            let mut steps = Vec::new(alloc);
            let done = fill(part, term, row, below, &mut steps)?;
            if done {
                Ok(Some(Step::Node(number, steps)))
            } else {
                Ok(None)
            }
        }
        Rule::AnyConstant(sort) => match constant_of(term, *sort) {
            Some(value) => Ok(Some(Step::Constant(number, value))),
            None => Ok(None),
        },
        Rule::AnyVariable(sort) => match variable_of(term, arguments, *sort) {
            Some(position) => Ok(Some(Step::Variable(number, position))),
            None => Ok(None),
        },
    }
}

/// The step by the first of the rules that derives the term; `None` exactly where none does.
pub fn first_step<T: Theory>(
    alloc: Global,
    arguments: &[Sort],
    rules: &[Rule<T>],
    term: &Term<T>,
    row: &[Option<usize>],
    below: &[Note],
) -> Result<Option<Step<T>>, AllocError>
    requires { length rules.now < 2 ^ 32 }
    ensures { IfOk result (λ made. MatchOption made
        (IsMadeByNone arguments.now (map (production_of T.denotes) rules.now)
        (expr_of T.denotes term.now) row.now (notes_of below.now))
        (λ step. IsMadeBy T.denotes arguments.now (map (production_of T.denotes) rules.now)
        (expr_of T.denotes term.now) row.now (notes_of below.now) step)) }
{
    for (place, rule) in rules.iter().enumerate() {
        let made = step_by(alloc, arguments, place as u32, rule, term, row, below)?;
        if let Some(step) = made {
            return Ok(Some(step));
        }
    }
    Ok(None)
}
