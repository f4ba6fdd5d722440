// Magnitudes of constants.
ghost use Rattle.std.specs.Prelude.{◌≡◌, ◌≢◌, ◌+◌, ◌<◌, ◌≤◌, ◌^◌};
ghost use Rattle.sy_terms.specs.Values.{Val};
ghost use Rattle.sy_grammar_base.specs.Trees.{digits, value_magnitude};
ghost use Rattle.sy_bank.specs.Leaves.{IsGivenConstant};

use sy_terms::Sort;

/// The magnitudes, from the first number on and below the second, of constants of the sort that have one binary digit
/// less than this size.
pub fn magnitudes(sort: Sort, size: u32) -> (u128, u128)
    requires { size ≢ 1 }
    ensures positive { 0 < result.0 }
    ensures bounded { result.1 ≤ 2 ^ 127 }
    ensures whole { (value : Val) → IsGivenConstant sort value → digits (value_magnitude value) + 1 ≡ size →
        (result.0 ≤ value_magnitude value) × (value_magnitude value < result.1) }
{
    if size < 2 || size > 128 {
        return (1, 1);
    }
    let first = 1u128 << (size - 2);
    (first, bound(sort).min(2 * first))
}

/// A number above all magnitudes of constants of the sort.
fn bound(sort: Sort) -> u128
    ensures bounded { result ≤ 2 ^ 127 }
    ensures above { (value : Val) → IsGivenConstant sort value → value_magnitude value < result }
{
    match sort {
        Sort::Bool => 1,
        Sort::Int => 1 << 127,
        Sort::Bits(width) => 1 << width.min(64),
    }
}
