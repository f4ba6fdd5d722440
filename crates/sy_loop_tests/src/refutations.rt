// What is shown of a problem without functions to be found, whose assumption and constraint are constants.
ghost use Rattle.std.specs.Prelude.{◌≡◌, ◌⊎◌, [], ◌∷◌};
ghost use Rattle.sy_terms.specs.Values.{Whole};
ghost use Rattle.sy_terms.specs.declared.sort.Value.TheVariants.{Truth};
ghost use Rattle.sy_terms.specs.declared.term.Term.{Const};
ghost use Rattle.sy_grammar_base.specs.Fits.{ProblemFits};

use crate::rows::{field, one};
use std::alloc::Global;
use std::process::Abort;
use sy_bank_level::Kept;
use sy_grammar_base::Problem;
use sy_loop_candidate::{Suspects, are_refuted};
use sy_meaning_integers::IntTheory;
use sy_points::{Points, Stored};
use sy_terms::{Seq, Term, Theory, Value};

/// The constant.
fn constant(rt: &impl Abort, alloc: Global, truth: bool) -> Seq<Term<IntTheory>>
    ensures { result ≡ Const (Truth truth) ∷ [] }
{
    one(rt, alloc, Term::Const(Value::Truth(truth)))
}

/// The problem of this assumption and this constraint.
fn posed(rt: &impl Abort, alloc: Global, assumption: bool, constraint: bool) -> Problem<IntTheory>
    ensures fits { ProblemFits ⟦<IntTheory as Theory>⟧ result }
    ensures nothing { (result.vars ≡ []) × (result.wanted ≡ []) }
{
    let assumptions = constant(rt, alloc, assumption);
    let constraints = constant(rt, alloc, constraint);
    let (defs, vars, wanted) = (Seq::new(alloc), Seq::new(alloc), Seq::new(alloc));
    let pool = Seq::new(alloc);
    Problem {
        defs,
        vars,
        wanted,
        assumptions,
        constraints,
        pool,
    }
}

/// The assignment of no variables, where it is to be stored.
fn assigned(rt: &impl Abort, alloc: Global, is_stored: bool) -> Stored<IntTheory>
    ensures { (result.items ≡ []) ⊎ (result.items ≡ ([], []) ∷ []) }
{
    let mut stored = Stored::new(alloc);
    if !is_stored {
        return stored;
    }
    let pushed = stored.push(Seq::new(alloc), Seq::new(alloc));
    pushed.expect(rt, "memory");
    stored
}

/// Whether the problem is violated at the assignment of no variables, where that is stored.
fn is_violated(
    rt: &impl Abort,
    alloc: Global,
    suspects: &mut Suspects,
    assumption: bool,
    constraint: bool,
    is_stored: bool,
) -> bool {
    let problem = posed(rt, alloc, assumption, constraint);
    let points = Points::<IntTheory>::new(alloc, 0, 1).expect(rt, "memory");
    let stored = assigned(rt, alloc, is_stored);
    let chosen: Vec<&Kept<IntTheory>> = Vec::new(alloc);
    let refuted = are_refuted(
        alloc,
        &problem,
        chosen.as_slice(),
        &points,
        &stored,
        suspects,
    );
    let is_violated = refuted.expect(rt, "memory");
    drop(problem);
    is_violated
}

/// Problems, one after the other: the assumption, the constraint, whether the assignment is stored, and whether a
/// violation is shown, each as `t` or `n`.
pub(crate) const ROWS: &str = "\
refutation|tntt tttn nntn tnnn tntt";

/// Whether the row is right.
pub(crate) fn is_right(rt: &impl Abort, alloc: Global, row: &str) -> bool {
    let mut suspects = Suspects::new(alloc);
    let mut is_right = true;
    for case in field(row, 1).split(' ') {
        is_right &= match case.as_bytes() {
            [assumption, constraint, stored, shown] => {
                let violated = is_violated(
                    rt,
                    alloc,
                    &mut suspects,
                    *assumption == b't',
                    *constraint == b't',
                    *stored == b't',
                );
                violated == (*shown == b't')
            }
            _ => false,
        };
    }
    is_right
}
