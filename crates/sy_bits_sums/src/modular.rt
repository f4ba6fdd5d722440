// Sums and products modulo a power of two.
ghost use Rattle.std.specs.Prelude.{◌≡◌, ◌≤◌, ◌+◌, ◌-◌, ◌*◌, ◌%◌, ◌^◌};

/// The greatest number of a width.
pub fn greatest(width: u32) -> u64
    requires { width ≤ 64 }
    ensures { result ≡ 2 ^ width - 1 }
{
    ((1u128 << width) - 1) as u64
}

/// The sum of two numbers modulo 2 to the power of the width.
pub(crate) fn sum_modulo(width: u32, a: u64, b: u64) -> u64
    requires { width ≤ 64 }
    ensures { result ≡ (a + b) % 2 ^ width }
{
    ((u128::from(a) + u128::from(b)) % (1 << width)) as u64
}

/// The product of two numbers modulo 2 to the power of the width.
pub(crate) fn product_modulo(width: u32, a: u64, b: u64) -> u64
    requires { width ≤ 64 }
    ensures { result ≡ (a * b) % 2 ^ width }
{
    ((u128::from(a) * u128::from(b)) % (1 << width)) as u64
}
