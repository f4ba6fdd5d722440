// Divisions that were met, with the variables of their quotients.
ghost use Rattle.std.specs.Prelude.{◌≡◌, ◌++◌, ◌∷◌, [], ◌&&◌, map, OnOk};
ghost use Rattle.std.specs.Ordering.{int_eq};
ghost use Rattle.sy_terms.specs.Values.{Whole};
ghost use Rattle.sy_terms.specs.Denoted.{expr_of};
ghost use Rattle.sy_lower_laws.specs.Lowering as spec;
ghost use Rattle.sy_lower_laws.specs.Lowering.{same_expr};
ghost use Rattle.sy_lower.specs.Codes.{division_key as spec_key, pair_key};
ghost use Rattle.sy_lower.specs.Kept.{pair_in, pairs_in};

use crate::keys::division_key;
use crate::same::same_term;
use std::alloc::{AllocError, Global};
use sy_meaning_integers::IntTheory;
use sy_terms::{Term, Want};

/// A division with the variable of its quotient; the next variable is that of its remainder.
#[derive(Drop)]
pub(crate) struct Pair {
    pub dividend: Term<IntTheory>,
    pub divisor: i128,
    pub quotient: u32,
}

/// The divisions that were met, in order, each with a key, so that few terms are compared.
#[derive(Drop)]
pub(crate) struct Pairs {
    pub keys: Vec<u64>,
    pub all: Vec<Pair>,
    ghost keyed: { keys.items ≡ map pair_key (pairs_in all.items) },
}

/// Whether the pair, of the key `own`, is of the division of this dividend by this divisor, which has the key `key`.
fn is_of(pair: &Pair, own: u64, dividend: &Term<IntTheory>, divisor: i128, key: u64) -> bool
    requires own { own ≡ pair_key (pair_in pair.now) }
    requires key { key ≡ spec_key (expr_of Whole dividend.now) divisor }
    ensures { result ≡ (int_eq pair.now.divisor divisor && same_expr (expr_of Whole pair.now.dividend)
        (expr_of Whole dividend.now)) }
{
    if own != key {
        return false;
    }
    pair.divisor == divisor && same_term(&pair.dividend, dividend)
}

/// The quotient of the first pair that is of this division.
fn found_in(keys: &[u64], all: &[Pair], dividend: &Term<IntTheory>, divisor: i128) -> Option<u32>
    requires { keys.now ≡ map pair_key (pairs_in all.now) }
    ensures { result ≡ spec.pair_of (pairs_in all.now) (expr_of Whole dividend.now) divisor }
{
    let key = division_key(dividend, divisor);
    for (place, own) in keys.iter().enumerate() {
        let pair = &all[place];
        if is_of(pair, *own, dividend, divisor, key) {
            return Some(pair.quotient);
        }
    }
    None
}

impl Pairs {
    /// No divisions yet.
    pub fn new(alloc: Global) -> Pairs
        ensures { result.all.items ≡ [] }
    {
        Pairs {
            keys: Vec::new(alloc),
            all: Vec::new(alloc),
        }
    }

    /// The quotient of the division, if it was met.
    pub fn find(&self, dividend: &Term<IntTheory>, divisor: i128) -> Option<u32>
        ensures { result ≡ spec.pair_of (pairs_in self.now.all.items) (expr_of Whole dividend.now) divisor }
    {
        found_in(self.keys.as_slice(), self.all.as_slice(), dividend, divisor)
    }

    /// Adds a division.
    pub fn add(&mut self, pair: Pair) -> Result<(), Want>
        ensures { OnOk result (self.new.all.items ≡ self.old.all.items ++ pair ∷ []) }
    {
        let key = division_key(&pair.dividend, pair.divisor);
        self.keys.push(key)?;
        match self.all.push(pair) {
            Ok(()) => Ok(()),
            Err(_) => {
                self.keys.truncate(self.all.len());
                Err(AllocError)
            }
        }
    }
}
