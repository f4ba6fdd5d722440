// The law of learned clauses.
ghost use Rattle.std.specs.Prelude.{◌≡◌, ℕ, ◌≤◌, ◌<◌, Bool, true, false, Some, slice_get, length};
ghost use Rattle.sy_clauses.specs.declared.Cnf.{Cnf};
ghost use Rattle.sy_clauses.specs.declared.Log.{Log};
ghost use Rattle.sy_clauses.specs.Clauses.{Clause};
ghost use Rattle.sy_clauses.specs.New.{LearnsNew};

/// Each clause that a log learns and that is new to those before it has another set of literals than each of these,
/// whether of the formula or learned, and has no variable with both signs. So learned clauses are pairwise different.
pub fn learned_clauses_differ()
    ensures different { (cnf : Cnf) (log : Log) (it : LearnsNew cnf log) (m n : ℕ) (c d : Clause) →
        length cnf.clauses ≤ n → m < n → slice_get it.clauses m ≡ Some c → slice_get it.clauses n ≡ Some d →
        ((v : ℕ) (s : Bool) → c v s ≡ d v s) → ⊥ }
    ensures one_sign { (cnf : Cnf) (log : Log) (it : LearnsNew cnf log) (n : ℕ) (c : Clause) →
        length cnf.clauses ≤ n → slice_get it.clauses n ≡ Some c → (v : ℕ) → c v true ≡ true → c v false ≡ false }
{}
