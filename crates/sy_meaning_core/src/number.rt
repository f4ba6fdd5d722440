// What the operators of Core need to know of a theory's numbers.

/// A machine's number, which stands for one value of a sort other than Bool.
pub trait Number: Copy {
    ghost use Rattle.std.specs.Prelude.{◌≡◌, ◌≢◌, Bool};
    ghost use Rattle.sy_terms.specs.Values.{Val, Truth, same};

    /// What the number stands for.
    ghost denotes: { Self → Val };

    /// Whether both stand for the same value.
    fn is_same(self, other: Self) -> bool
        ensures { result ≡ same (denotes self) (denotes other) };

    /// No number stands for a truth value.
    ghost no_truth: { (n : Self) (truth : Bool) → denotes n ≢ Truth truth };
}

/// An `i128` stands for itself as a whole number.
impl Number for i128 {
    ghost use Rattle.std.specs.Prelude.{◌≡◌};
    ghost use Rattle.sy_terms.specs.Values.{Whole, same};

    ghost denotes = { λ n. Whole n };

    ghost no_truth = { λ n truth e. Prim.cc };

    fn is_same(self, other: i128) -> bool {
        self == other
    }
}
