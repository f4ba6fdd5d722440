// The laws of agreeing bodies, of kept terms that stand for members, and of members that are all refuted.
ghost use Rattle.std.specs.Prelude.{ℕ, Bool, List, ◌+◌, ◌≡◌, ◌<◌, ◌≤◌, map};
ghost use Rattle.sy_terms.specs.Values.{Val};
ghost use Rattle.sy_terms.specs.Expr.{Expr};
ghost use Rattle.sy_terms.specs.declared.op.Op.{Op};
ghost use Rattle.sy_grammar_base.specs.Questions.{Question};
ghost use Rattle.sy_grammar_base.specs.Solving.{AreWithin};
ghost use Rattle.sy_query_base.specs.Queries.{Violates};
ghost use Rattle.sy_points.specs.Asked.{AreDistinct, Asked};
ghost use Rattle.sy_bank_level.specs.Banks.{Entry, Merged};
ghost use Rattle.sy_bank_level.specs.Covering.{sizes, terms};
ghost use Rattle.sy_loop_spec.specs.declared.reach.Reach.{Reach};
ghost use Rattle.sy_loop_spec.specs.declared.reach.Reach.TheVariants.{Sizes};
ghost use Rattle.sy_loop_spec.specs.Histories.{AllViolate, Counterexample, IsCandidate, IsHonestHistory, HistoryIsKept, IsMet, IsOpenNumber};
ghost use Rattle.sy_loop_spec.specs.Sizes.{AreAtMost};
ghost use Rattle.sy_loop_spec.specs.Unsolved.{NoSolution, NoSolutionWithin};
ghost use Rattle.sy_loop_spec.specs.Adding.{AreAsked, KnownGrows};
ghost use Rattle.sy_loop_spec.specs.Trials.{IsRefuted};
ghost use Rattle.sy_loop_spec.specs.Truths.{IsViolated};
ghost use Rattle.sy_loop_spec.specs.Agreeing.{BodiesAgree, AssumptionsAskNothing, AssumptionsFit};
ghost use Rattle.sy_loop_spec.specs.Merging.{AreChosen, AreCovering, AreMerged};
ghost use Rattle.sy_loop_spec.specs.Refuting.{AllRefuted, AllTreesViolate, AreDoneBelow};

/// Where bodies violate the problem by a constraint whose calls are among the tuples, all bodies that agree with them
/// at the tuples violate it at that assignment, by the same calls.
pub fn agreeing_bodies_are_refuted()
    ensures at { (question : Question) (asked : Asked) (bodies others : List Expr) (values : List Val)
        (calls : List (ℕ × List Val)) → AssumptionsAskNothing question → BodiesAgree question asked bodies others →
        AreAsked calls asked → IsViolated question bodies values calls → IsViolated question others values calls }
    ensures violates { (question : Question) (bodies : List Expr) (values : List Val) (calls : List (ℕ × List Val)) →
        IsViolated question bodies values calls → Violates question bodies values }
    ensures stored { (question : Question) (history : List Counterexample) (asked : Asked) (bodies others : List Expr) →
        AssumptionsAskNothing question → BodiesAgree question asked bodies others →
        IsRefuted question history asked bodies → IsRefuted question history asked others }
{}

/// Where each function has an honest bank over its tuples that covers derivations up to a size, kept terms agree with
/// any members whose sizes sum to at most that.
pub fn members_are_merged()
    ensures { (question : Question) (asked : Asked) (n : ℕ) (banks : List Merged) (bodies : List Expr) →
        AreCovering question asked n banks → AreWithin question.pool n question.goals bodies →
        AreMerged question asked n banks bodies }
{}

/// Where moreover all kept terms whose sizes sum to at most that size are refuted, so are all members of such sizes
/// (`whole`); kept terms whose sizes sum to just that size will do where all members of lesser sizes are refuted
/// (`next`).
pub fn members_are_refuted()
    ensures whole { (question : Question) (history : List Counterexample) (asked : Asked)
        (n : ℕ) (banks : List Merged) → AssumptionsAskNothing question → AreCovering question asked n banks →
        ((chosen : List Entry) → AreChosen banks chosen →
        sizes chosen ≤ n → IsRefuted question history asked (terms chosen)) → AllRefuted question history asked n }
    ensures next { (question : Question) (history : List Counterexample) (asked : Asked) (n : ℕ) (banks : List Merged) →
        AssumptionsAskNothing question → AreCovering question asked n banks →
        ((m : ℕ) → m < n → AllRefuted question history asked m) →
        ((chosen : List Entry) → AreChosen banks chosen →
        sizes chosen ≡ n → IsRefuted question history asked (terms chosen)) → AllRefuted question history asked n }
{}

/// What is refuted stays so when the history and the tuples grow.
pub fn what_is_refuted_stays_so()
    ensures { (question : Question) (history history' : List Counterexample)
        (asked asked' : Asked) (bodies : List Expr) → KnownGrows history asked history' asked' →
        IsRefuted question history asked bodies → IsRefuted question history' asked' bodies }
{}

/// Where all members up to a size are refuted, each violates the problem at an assignment of the history (`violated`).
/// Where all bodies in bound do, after an honest history, none solves it (`unsolved`); and where no grammar has larger
/// members, no members at all do (`exhausted`).
pub fn nothing_refuted_solves()
    ensures violated { (question : Question) (history : List Counterexample) (asked : Asked) (n : ℕ) →
        AllRefuted question history asked n → AllViolate Sizes question history n }
    ensures unsolved { (reach : Reach) (question : Question) (size rounds n : ℕ) (history : List Counterexample) →
        IsHonestHistory reach question size rounds history → AllViolate reach question history n →
        NoSolutionWithin reach question n }
    ensures exhausted { (reach : Reach) (question : Question) (n : ℕ) →
        AreAtMost question n → NoSolutionWithin reach question n → NoSolution question }
{}

/// What a search that ascends by sizes does: nothing is to be done below 0 (`begins`); a size is done where all members
/// of such sizes are refuted, and all conditional trees in that bound (`next`); what is done stays so (`stays`); the
/// next size is open (`opens`); and nothing within what is done solves the problem (`ends`).
pub fn sizes_are_done()
    ensures begins { (reach : Reach) (question : Question) (history : List Counterexample) (asked : Asked) →
        AreDoneBelow reach question history asked 0 }
    ensures next { (question : Question) (history : List Counterexample) (asked : Asked) (n : ℕ) (reach : Reach) →
        AllRefuted question history asked n → AllTreesViolate reach question history n →
        AreDoneBelow reach question history asked n → AreDoneBelow reach question history asked (n + 1) }
    ensures stays { (reach : Reach) (question : Question) (history history' : List Counterexample)
        (asked asked' : Asked) (n : ℕ) → KnownGrows history asked history' asked' →
        AreDoneBelow reach question history asked n → AreDoneBelow reach question history' asked' n }
    ensures opens { (reach : Reach) (question : Question) (size n : ℕ) (history : List Counterexample) (asked : Asked) →
        n ≤ size → AreDoneBelow reach question history asked n →
        IsOpenNumber reach question size history n }
    ensures ends { (reach : Reach) (question : Question) (size rounds n : ℕ) (history : List Counterexample)
        (asked : Asked) → IsHonestHistory reach question size rounds history →
        AreDoneBelow reach question history asked (n + 1) → NoSolutionWithin reach question n }
{}

/// A number less than an open one is open (`lesser`), and what is open after a history, a candidate after it or met by
/// it stays so when the history grows.
pub fn open_numbers_stay_open()
    ensures lesser { (reach : Reach) (question : Question) (size : ℕ) (history : List Counterexample) (m n : ℕ) →
        m ≤ n → IsOpenNumber reach question size history n → IsOpenNumber reach question size history m }
    ensures stays { (reach : Reach) (question : Question) (size n : ℕ) (history history' : List Counterexample) →
        HistoryIsKept history history' → IsOpenNumber reach question size history n →
        IsOpenNumber reach question size history' n }
    ensures candidate { (reach : Reach) (question : Question) (size : ℕ) (history history' : List Counterexample)
        (bodies : List Expr) → HistoryIsKept history history' → IsCandidate reach question size history bodies →
        IsCandidate reach question size history' bodies }
    ensures met { (reach : Reach) (question : Question) (size function : ℕ) (history history' : List Counterexample)
        (tuple : List Val) → HistoryIsKept history history' → IsMet reach question size history function tuple →
        IsMet reach question size history' function tuple }
{}

/// The assignments of an honest history are pairwise distinct.
pub fn honest_assignments_differ()
    ensures { (reach : Reach) (question : Question) (size rounds : ℕ) (history : List Counterexample) →
        IsHonestHistory reach question size rounds history →
        AreDistinct (map (λ (c : Counterexample). c.assignment) history) }
{}

/// Assumptions that fit where no function is to be found ask nothing of those that are.
pub fn assumptions_ask_nothing()
    ensures { (owned : Op → Bool) (question : Question) →
        AssumptionsFit owned question → AssumptionsAskNothing question }
{}
