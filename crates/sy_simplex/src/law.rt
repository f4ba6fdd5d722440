// The laws of the answers, and of bases.
ghost use Rattle.std.specs.Prelude.{ℕ, List, length, ◌<◌, ◌≤◌, ◌+◌, ◌^◌};
ghost use Rattle.sy_linear_known.specs.declared.form.Form.{Form};
ghost use Rattle.sy_simplex.specs.States.{TableauState};
ghost use Rattle.sy_simplex.specs.declared.answer.Feasible.{Feasible};
ghost use Rattle.sy_simplex.specs.Answers.{TellsFeasible, IsSameAnswer};
ghost use Rattle.sy_simplex.specs.Bases.{HaveSameBasis, IsAtRest, HaveSameRows};
ghost use Rattle.sy_simplex.specs.Runs.{Ran, RunIsSpent};

/// What one answer tells of a run, no other answer tells: so each answer of `feasible` comes exactly where its part of
/// `TellsFeasible` holds, unless memory is wanted.
pub fn answers_are_determined()
    ensures { (vars : ℕ) (forms : List Form) (pivots : ℕ) (a b : Feasible) →
        TellsFeasible vars forms pivots a → TellsFeasible vars forms pivots b → IsSameAnswer a b }
{}

/// At each tableau of the run of some forms a variable without a row is at rest, a free one at 0 and a form's at its
/// bound, and the rows give the values of their variables.
pub fn columns_are_at_rest()
    ensures { (vars : ℕ) (forms : List Form) (steps : List (ℕ × ℕ)) (t : TableauState) →
        Ran vars forms steps t → IsAtRest vars forms t }
{}

/// The basic variables fix a tableau: where two of the run have the same ones, they have the same rows and values.
pub fn a_basis_fixes_its_tableau()
    ensures { (vars : ℕ) (forms : List Form) (xs ys : List (ℕ × ℕ)) (t u : TableauState) →
        Ran vars forms xs t → Ran vars forms ys u → HaveSameBasis t u → HaveSameRows t u }
{}

/// In the run of some forms no two tableaus have the same basic variables.
pub fn no_basis_comes_twice()
    ensures { (vars : ℕ) (forms : List Form) (xs ys : List (ℕ × ℕ)) (t u : TableauState) →
        Ran vars forms xs t → Ran vars forms ys u → length xs < length ys → ¬ (HaveSameBasis t u) }
{}

/// With as many pivots as there are sets of the variables, of which each form has one, no run is spent: `feasible`
/// doesn't answer `Pivots` then.
pub fn enough_pivots_are_never_spent()
    ensures { (vars : ℕ) (forms : List Form) (pivots : ℕ) (steps : List (ℕ × ℕ)) →
        2 ^ (vars + length forms) ≤ pivots → ¬ (RunIsSpent vars forms pivots steps) }
{}
