// On which tuple a constraint rests at values of the variables.
ghost use Rattle.std.specs.Prelude.{IfOk, Contains};
ghost use Rattle.sy_terms.specs.Denoted.{vals_of};
ghost use Rattle.sy_terms.specs.Expr.{Expr};
ghost use Rattle.sy_grammar_base.specs.Fits.{ProblemFits};
ghost use Rattle.sy_grammar_base.specs.Questions.{question_of};
ghost use Rattle.sy_grammar_base.specs.Solving.{AreValues};
ghost use Rattle.sy_loop_spec.specs.Pointwise.{IsPointwise};
ghost use Rattle.sy_loop_pointwise.specs.Posed.{PosesConstraint};
ghost use Rattle.sy_loop_pointwise.specs.Rests.{Rests};

use crate::asks::arguments_of;
use crate::posed::Posed;
use crate::valued::{first_valued, values_at};
use std::alloc::Global;
use sy_grammar_base::Problem;
use sy_terms::{Theory, Value, Values, Want};

/// Where a constraint rests at values of the variables.
#[derive(Drop)]
pub enum Rested<T: Theory> {
    /// On no tuple: it applies no function to be found.
    Nowhere,
    /// On this tuple of arguments of the function to be found, and on no other.
    At(Values<T>),
    /// An argument isn't computable there, so the constraint isn't, whatever the function is.
    Leaves,
}

/// Where the constraint of a pointwise problem rests at these values of the variables.
pub fn rest_of<T: Theory>(
    alloc: Global,
    problem: &Problem<T>,
    posed: &Posed<T>,
    values: &[Value<T::Num>],
) -> Result<Rested<T>, Want>
    requires problem { ProblemFits T.Theory problem.now }
    requires pointwise { IsPointwise (question_of T.denotes problem.now) }
    requires values { AreValues problem.now.vars (vals_of T.denotes values.now) }
    ensures { IfOk result (λ rested. (constraint : Expr) → Contains (question_of T.denotes problem.now).constraints
        constraint → PosesConstraint (question_of T.denotes problem.now) constraint posed.now →
        Rests T.denotes (question_of T.denotes problem.now) (vals_of T.denotes values.now) constraint rested) }
{
    match posed {
        Posed::Free => Ok(Rested::Nowhere),
        Posed::Applies(table, call) => {
            let shapes = table.shapes();
            let Some(arguments) = arguments_of(shapes, *call) else {
                return Ok(Rested::Nowhere);
            };
            let found = first_valued(alloc, &problem.defs, shapes, *call, values)?;
            match values_at::<T>(alloc, found.as_slice(), arguments.as_slice())? {
                Some(tuple) => Ok(Rested::At(tuple)),
                None => Ok(Rested::Leaves),
            }
        }
    }
}
