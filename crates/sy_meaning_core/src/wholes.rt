// Whole numbers of 128 bits.
ghost use Rattle.std.specs.Prelude.{◌≡◌, ◌+ℤ◌, true, false, MatchOption};
ghost use Rattle.sy_terms.specs.Theories.{fits_128};

/// The sum of two whole numbers; `None` exactly where it doesn't fit 128 bits.
pub fn whole_sum(x: i128, y: i128) -> Option<i128>
    ensures { MatchOption result (fits_128 (x +ℤ y) ≡ false) (λ n. (fits_128 (x +ℤ y) ≡ true) × (n ≡ x +ℤ y)) }
{
    x.checked_add(y)
}
