// Laws of grammars and problems.
ghost use Rattle.std.specs.Prelude.{map};
ghost use Rattle.sy_terms.specs.Denoted.{expr_of};
ghost use Rattle.sy_terms_operators.specs.Evaluation.{BodiesFit};
ghost use Rattle.sy_grammar_base.specs.Fits.{ProblemFits};
ghost use Rattle.sy_grammar_base.specs.Questions.{question_of, signatures};
ghost use Rattle.sy_grammar_base.specs.Solving.{AreMembers};

use crate::problem::Problem;
use sy_terms::{Bodies, Theory};

/// Members of the grammars of a problem that fits are bodies that fit.
pub fn candidates_fit<T: Theory>(problem: &Problem<T>, bodies: &Bodies<T>)
    requires problem { ProblemFits T.Theory problem.now }
    requires members { AreMembers (question_of T.denotes problem.now).goals (map (expr_of T.denotes) bodies.now) }
    ensures { BodiesFit T.owned T.denotes problem.now.defs bodies.now (signatures problem.now) }
{}
