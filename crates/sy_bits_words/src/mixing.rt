// A number for two numbers.
ghost use Rattle.std.specs.Prelude.{◌≡◌};
ghost use Rattle.sy_bits_words.specs.Mixing.{mixed_number};

/// A number for both numbers.
pub(crate) fn mixed(key: u64, code: u64) -> u64
    ensures { result ≡ mixed_number key code }
{
    key.wrapping_mul(11400714819323198485).wrapping_add(code)
}
