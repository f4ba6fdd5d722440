// Products of numbered values.
ghost use Rattle.std.specs.Prelude.{◌≡◌, ◌↔◌, ◌≤◌, ◌<◌, ◌*◌, ◌^◌, ℕ, length, IsTrue, IfOk, OnOk, []};
ghost use Rattle.sy_bits_sums.specs.Polynomials.{product, monomial_value, Agree};

use crate::modular::product_modulo;
use std::alloc::Global;
use sy_seq::Want;

/// A number times the values at some places. A place stands as often as its value is a factor; the least comes first.
#[derive(Drop)]
pub struct Monomial {
    pub coefficient: u64,
    pub factors: Vec<u32>,
}

/// Puts another value into a product.
fn add_factor(factors: &mut Vec<u32>, place: u32) -> Result<(), Want>
    ensures { OnOk result ((values : ℕ → ℕ) →
        product values factors.new.items ≡ values place * product values factors.old.items) }
{
    let at = factors.as_slice().partition_point(|other| *other < place);
    factors.insert(at, place)?;
    Ok(())
}

/// Whether the two lists are the same.
pub(crate) fn same_places(a: &[u32], b: &[u32]) -> bool
    ensures { IsTrue result → a.now ≡ b.now }
{
    a == b
}

impl Monomial {
    /// The monomial that is a number.
    pub(crate) fn number(alloc: Global, coefficient: u64) -> Monomial
        ensures coefficient { result.coefficient ≡ coefficient }
        ensures factors { result.factors.items ≡ [] }
    {
        Monomial {
            coefficient,
            factors: Vec::new(alloc),
        }
    }

    /// Whether the two have the same coefficient and the same factors.
    pub(crate) fn equals(&self, other: &Monomial) -> bool
        ensures { IsTrue result → (values : ℕ → ℕ) → monomial_value values self.now ≡ monomial_value values other.now }
    {
        self.coefficient == other.coefficient
            && same_places(self.factors.as_slice(), other.factors.as_slice())
    }

    /// The product of two monomials modulo 2 to the power of the width.
    pub(crate) fn times(
        &self,
        alloc: Global,
        width: u32,
        other: &Monomial,
    ) -> Result<Monomial, Want>
        requires { width ≤ 64 }
        ensures value { IfOk result (λ r. (values : ℕ → ℕ) →
            Agree width (monomial_value values r) (monomial_value values self.now * monomial_value values other.now)) }
        ensures reduced { IfOk result (λ r. r.coefficient < 2 ^ width) }
    {
        let mut factors = Vec::from_slice(alloc, self.factors.as_slice())?;
        for place in other.factors.as_slice() {
            add_factor(&mut factors, *place)?;
        }
        let coefficient = product_modulo(width, self.coefficient, other.coefficient);
        Ok(Monomial {
            coefficient,
            factors,
        })
    }
}

/// Whether the first product stands before the second one.
fn before(a: &[u32], b: &[u32]) -> bool {
    if a.len() != b.len() {
        return a.len() > b.len();
    }
    for i in 0..a.len() {
        if a[i] != b[i] {
            return a[i] < b[i];
        }
    }
    false
}

/// Where the product stands among the others, or where it would.
pub(crate) fn place_of(monomials: &[Monomial], factors: &[u32]) -> usize
    ensures { result ≤ length monomials.now }
{
    monomials.partition_point(|monomial| before(monomial.factors.as_slice(), factors))
}
