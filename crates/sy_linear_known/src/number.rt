// Sums and products of numbers of 128 bits.
ghost use Rattle.std.specs.Prelude.{◌≡◌, ◌+ℤ◌, ◌-ℤ◌, ◌*ℤ◌, true};
ghost use Rattle.std.specs.Option.{SomeIff};
ghost use Rattle.sy_linear_known.specs.Forms.{in_range};

/// The sum, where 128 bits hold it.
pub(crate) fn sum(a: i128, b: i128) -> Option<i128>
    ensures { SomeIff result (in_range (a +ℤ b) ≡ true) (a +ℤ b) }
{
    a.checked_add(b)
}

/// The difference, where 128 bits hold it.
pub(crate) fn difference(a: i128, b: i128) -> Option<i128>
    ensures { SomeIff result (in_range (a -ℤ b) ≡ true) (a -ℤ b) }
{
    a.checked_sub(b)
}

/// The product, where 128 bits hold it.
pub(crate) fn product(a: i128, b: i128) -> Option<i128>
    ensures { SomeIff result (in_range (a *ℤ b) ≡ true) (a *ℤ b) }
{
    a.checked_mul(b)
}
