// The law of open tests.
ghost use Rattle.std.specs.Prelude.{◌≡◌, ◌∷◌, ◌++◌, [], ℕ, ℤ, List};
ghost use Rattle.sy_terms.specs.declared.sort.Sort.{Sort};
ghost use Rattle.sy_terms.specs.declared.sort.Sort.TheVariants as sorts;
ghost use Rattle.sy_linear_known.specs.declared.form.Form.{Form};
ghost use Rattle.sy_linear_known.specs.Forms.{form_negation};
ghost use Rattle.sy_linear_known.specs.declared.path.Fact.TheVariants.{AtLeast};
ghost use Rattle.sy_linear_known.specs.Trees.{IsOf, at_or_below};
ghost use Rattle.sy_linear_known.specs.declared.path.Fact.{Fact};
ghost use Rattle.sy_linear_known.specs.declared.path.Test.{Test};
ghost use Rattle.sy_linear_known.specs.declared.answer.Known.TheVariants.{Undecided};
ghost use Rattle.sy_linear_known.specs.Seen.{LinearQuery, query_known};
ghost use Rattle.sy_intsolve_paths_laws.specs.Paths.{IsPath, TestIsOpen, Suit};

/// The test that a query leaves open under a path is on variables of the query, its negation fits 128 bits, and the
/// path stays one on these variables with either of the two.
pub fn open_tests_suit()
    ensures { (query : LinearQuery) (path : List Fact) (test : Test) →
        IsPath query.vars path → query_known query path ≡ Undecided test → TestIsOpen query.vars path test }
{}

/// The empty path is one on the variables of any query. A path stays one with a form on integer variables, and with an
/// integer variable at most a bound or above it.
pub fn paths_grow()
    ensures none { (vars : List Sort) → IsPath vars [] }
    ensures form { (vars : List Sort) (path : List Fact) (form : Form) →
        IsPath vars path → Suit vars (AtLeast form) → IsPath vars (path ++ AtLeast form ∷ []) }
    ensures at_most { (vars : List Sort) (path : List Fact) (variable : ℕ) (bound : ℤ) → IsPath vars path →
        IsOf sorts.Int vars variable → IsPath vars (path ++ AtLeast (at_or_below variable bound) ∷ []) }
    ensures above { (vars : List Sort) (path : List Fact) (variable : ℕ) (bound : ℤ) → IsPath vars path →
        IsOf sorts.Int vars variable → IsPath vars (path ++ AtLeast (form_negation (at_or_below variable bound)) ∷ []) }
{}
