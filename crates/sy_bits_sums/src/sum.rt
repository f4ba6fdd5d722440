// Sums of monomials.
ghost use Rattle.std.specs.Prelude.{◌≡◌, ◌≤◌, ◌<◌, ◌+◌, ◌*◌, ◌^◌, ℕ, length, get_or, IsTrue, IfOk, OnOk, IfSome};
ghost use Rattle.sy_bits_sums.specs.Polynomials.{total, monomial_value, Agree};

use crate::modular::{greatest, sum_modulo};
use crate::monomial::{Monomial, place_of, same_places};
use std::alloc::Global;
use sy_seq::Want;

/// A polynomial over numbered values modulo 2 to the power of its width, which is at most 64.
#[derive(Drop)]
pub struct Sum {
    pub width: u32,
    pub monomials: Vec<Monomial>,
}

impl Sum {
    ghost use Rattle.sy_bits_sums.specs.declared.monomial.Monomial.{Monomial};

    /// The sum of nothing, 0.
    pub fn new(alloc: Global, width: u32) -> Sum
        ensures width { result.width ≡ width }
        ensures value { (values : ℕ → ℕ) → total values result.monomials.items ≡ 0 }
    {
        Sum {
            width,
            monomials: Vec::new(alloc),
        }
    }

    /// Whether the monomial at the place has these factors.
    fn has_at(&self, place: usize, factors: &[u32]) -> bool
        ensures within { IsTrue result → place < length self.now.monomials.items }
        ensures same { IsTrue result → (d : Monomial) →
            (get_or self.now.monomials.items place d).factors.items ≡ factors.now }
    {
        if place >= self.monomials.len() {
            return false;
        }
        let monomial = &self.monomials[place];
        same_places(monomial.factors.as_slice(), factors)
    }

    /// Adds a monomial. One with the same factors is made one with it; a coefficient of 0 isn't kept.
    pub fn add(&mut self, monomial: Monomial) -> Result<(), Want>
        requires { self.old.width ≤ 64 }
        ensures width { self.new.width ≡ self.old.width }
        ensures value { OnOk result ((values : ℕ → ℕ) → Agree self.old.width (total values self.new.monomials.items)
            (total values self.old.monomials.items + monomial_value values monomial)) }
    {
        let Monomial {
            mut coefficient,
            factors,
        } = monomial;
        let place = place_of(self.monomials.as_slice(), factors.as_slice());
        if self.has_at(place, factors.as_slice()) {
            let like = self.monomials.remove(place);
            coefficient = sum_modulo(self.width, like.coefficient, coefficient);
        }
        if coefficient != 0 {
            self.monomials.insert(
                place,
                Monomial {
                    coefficient,
                    factors,
                },
            )?;
        }
        Ok(())
    }

    /// Adds the product of a sum and a monomial.
    pub fn add_multiple(&mut self, alloc: Global, other: &Sum, by: &Monomial) -> Result<(), Want>
        requires { self.old.width ≤ 64 }
        ensures width { self.new.width ≡ self.old.width }
        ensures value { OnOk result ((values : ℕ → ℕ) →
            Agree self.old.width (total values self.new.monomials.items) (total values
            self.old.monomials.items + total values other.now.monomials.items * monomial_value values by.now)) }
    {
        for monomial in other.monomials.as_slice() {
            let multiple = monomial.times(alloc, self.width, by)?;
            self.add(multiple)?;
        }
        Ok(())
    }

    /// The sum that is a number modulo 2 to the power of the width.
    pub fn constant(alloc: Global, width: u32, number: u64) -> Result<Sum, Want>
        requires { width ≤ 64 }
        ensures width { IfOk result (λ r. r.width ≡ width) }
        ensures value { IfOk result (λ r. (values : ℕ → ℕ) → Agree width (total values r.monomials.items) number) }
    {
        let mut sum = Sum::new(alloc, width);
        sum.add(Monomial::number(alloc, number))?;
        Ok(sum)
    }

    /// The sum that is the value at a place.
    pub fn value(alloc: Global, width: u32, place: u32) -> Result<Sum, Want>
        requires { width ≤ 64 }
        ensures width { IfOk result (λ r. r.width ≡ width) }
        ensures value { IfOk result (λ r. (values : ℕ → ℕ) →
            Agree width (total values r.monomials.items) (values place)) }
    {
        let mut monomial = Monomial::number(alloc, 1);
        monomial.factors.push(place)?;
        let mut sum = Sum::new(alloc, width);
        sum.add(monomial)?;
        Ok(sum)
    }

    /// The sum of this one and a multiple of the other one, modulo 2 to the power of the width.
    pub fn plus(&self, alloc: Global, width: u32, other: &Sum, multiple: u64) -> Result<Sum, Want>
        requires { width ≤ 64 }
        ensures width { IfOk result (λ r. r.width ≡ width) }
        ensures value { IfOk result (λ r. (values : ℕ → ℕ) → Agree width (total values r.monomials.items)
            (total values self.now.monomials.items + total values other.now.monomials.items * multiple)) }
    {
        let mut sum = Sum::new(alloc, width);
        let one = Monomial::number(alloc, 1);
        sum.add_multiple(alloc, self, &one)?;
        let by = Monomial::number(alloc, multiple);
        sum.add_multiple(alloc, other, &by)?;
        Ok(sum)
    }

    /// The sum of this one less the other one, modulo 2 to the power of the width.
    pub fn minus(&self, alloc: Global, width: u32, other: &Sum) -> Result<Sum, Want>
        requires { width ≤ 64 }
        ensures width { IfOk result (λ r. r.width ≡ width) }
        ensures value { IfOk result (λ r. (values : ℕ → ℕ) → Agree width (total values
            r.monomials.items + total values other.now.monomials.items) (total values self.now.monomials.items)) }
    {
        let difference = self.plus(alloc, width, other, greatest(width))?;
        Ok(difference)
    }

    /// The product of the two, multiplied out, modulo 2 to the power of the width.
    pub fn times(&self, alloc: Global, width: u32, other: &Sum) -> Result<Sum, Want>
        requires { width ≤ 64 }
        ensures width { IfOk result (λ r. r.width ≡ width) }
        ensures value { IfOk result (λ r. (values : ℕ → ℕ) → Agree width (total values r.monomials.items)
            (total values self.now.monomials.items * total values other.now.monomials.items)) }
    {
        let mut sum = Sum::new(alloc, width);
        for monomial in other.monomials.as_slice() {
            sum.add_multiple(alloc, self, monomial)?;
        }
        Ok(sum)
    }

    /// The number that the sum is at all values; `None` where it may depend on them.
    pub fn fixed(&self) -> Option<u64>
        ensures { IfSome result (λ n. (values : ℕ → ℕ) → total values self.now.monomials.items ≡ n) }
    {
        if self.monomials.is_empty() {
            return Some(0);
        }
        let first = &self.monomials[0];
        if self.monomials.len() == 1 && first.factors.is_empty() {
            return Some(first.coefficient);
        }
        None
    }

    /// Whether the two have the same width and the same monomials.
    pub fn equals(&self, other: &Sum) -> bool
        ensures width { IsTrue result → self.now.width ≡ other.now.width }
        ensures value { IsTrue result → (values : ℕ → ℕ) →
            total values self.now.monomials.items ≡ total values other.now.monomials.items }
    {
        if self.width != other.width || self.monomials.len() != other.monomials.len() {
            return false;
        }
        for i in 0..self.monomials.len() {
            if !self.monomials[i].equals(&other.monomials[i]) {
                return false;
            }
        }
        true
    }
}
