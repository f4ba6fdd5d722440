// Signals.
ghost use Rattle.std.specs.Prelude.{◌≡◌, ◌≤◌, ℕ, Bool, true, length};
ghost use Rattle.sy_terms.specs.Values.{truth};
ghost use Rattle.sy_meaning_words.specs.Vectors.{is_bits};
ghost use Rattle.sy_gates.specs.Circuits.{bit_value, bit_bound};
ghost use Rattle.sy_bits_operators.specs.Signals.{signal_value, signal_sort, signal_bound};

use sy_gates::Bit;
use sy_seq::Seq;

/// What stands for a value in a circuit: a bit for a truth value, and for a vector its bits, the least first.
#[derive(Drop)]
pub enum Signal {
    Truth(Bit),
    Vector(Seq<Bit>),
}

impl Signal {
    /// The bit of a truth value; for a vector a bit that is false.
    pub fn bit(&self) -> Bit
        ensures value { (v : ℕ → Bool) → bit_value v result ≡ truth (signal_value v self.now) }
        ensures bound { bit_bound result ≤ signal_bound self.now }
    {
        match self {
            Signal::Truth(bit) => *bit,
            Signal::Vector(_) => Bit::Fixed(false),
        }
    }

    /// The bits of a vector.
    pub(crate) fn word(&self) -> &[Bit]
        requires { is_bits (signal_sort self.now) ≡ true }
        ensures { Signal.Vector result.now ≡ self.now }
    {
        match self {
            Signal::Truth(_) => unreachable!(),
            Signal::Vector(word) => word.as_slice(),
        }
    }
}
