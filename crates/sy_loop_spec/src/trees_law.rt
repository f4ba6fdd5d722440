// The laws of conditional trees that kept terms stand for, and of bounds as sums of least sizes.
ghost use Rattle.std.specs.Prelude.{ℕ, List, ◌∷◌, ◌-◌, ◌≤◌, ◌↔◌};
ghost use Rattle.sy_terms.specs.Values.{Val};
ghost use Rattle.sy_terms.specs.Expr.{Expr};
ghost use Rattle.sy_terms.specs.Meaning.{Function};
ghost use Rattle.sy_grammar_base.specs.Questions.{Goal};
ghost use Rattle.sy_grammar_base.specs.Solving.{AreWithin};
ghost use Rattle.sy_grammar_base.specs.Trees.{HasSize, Syntax};
ghost use Rattle.sy_bank_level.specs.Banks.{IsHonestBank, Merged};
ghost use Rattle.sy_bank_level.specs.Covering.{Covers};
ghost use Rattle.sy_loop_spec.specs.Conditional.{ArePartsWithin, Conditional};
ghost use Rattle.sy_loop_spec.specs.Trees.{IsMergedTree};

/// Where an honest bank covers all derivations up to a size, each conditional tree over parts of such sizes has one
/// over kept parts, of as many leaves, which reaches a leaf of the same value at each of the bank's points.
pub fn trees_are_merged()
    ensures { (syntax : Syntax) (defined : List Function) (pool : List Val) (bank : Merged) (condition n : ℕ) →
        n ≤ bank.upto → IsHonestBank syntax defined pool bank → Covers syntax defined pool bank →
        (parts : Conditional) → ArePartsWithin syntax pool condition n parts →
        IsMergedTree defined bank.points bank.levels condition n parts }
{}

/// Bodies are within a bound exactly where their sizes sum to at most it: the first one's size, the least of its
/// derivations', is, and the others are within what it leaves.
pub fn bounds_are_sizes()
    ensures { (goal : Goal) (goals : List Goal) (pool : List Val) (body : Expr) (bodies : List Expr) (size n : ℕ) →
        HasSize goal.grammar pool body size →
        AreWithin pool n (goal ∷ goals) (body ∷ bodies) ↔ ((size ≤ n) × AreWithin pool (n - size) goals bodies) }
{}
