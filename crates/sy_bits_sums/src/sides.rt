// Sums as differences of sums.
ghost use Rattle.std.specs.Prelude.{◌≡◌, ◌≤◌, ◌+◌, ◌*◌, ℕ, IfOk, OnOk};
ghost use Rattle.sy_bits_sums.specs.Polynomials.{total, monomial_value, Agree};

use crate::modular::greatest;
use crate::monomial::Monomial;
use crate::sum::Sum;
use std::alloc::Global;
use sy_seq::Want;

/// Two sums of one width.
#[derive(Drop)]
pub struct Sides {
    pub left: Sum,
    pub right: Sum,
}

/// By what a monomial is multiplied on the left and on the right of a difference: by 1 and 0 where its coefficient is
/// in the lower half of the numbers of the width, and by 0 and minus 1 where it is in the upper one, or there are no
/// factors.
fn signs(width: u32, monomial: &Monomial) -> (u64, u64)
    requires { width ≤ 64 }
    ensures { Agree width result.0 (1 + result.1) }
{
    let most = greatest(width);
    if !monomial.factors.is_empty() && monomial.coefficient <= most / 2 {
        (1, 0)
    } else {
        (0, most)
    }
}

impl Sum {
    /// Adds the product of a monomial and a number.
    fn add_product(&mut self, alloc: Global, monomial: &Monomial, number: u64) -> Result<(), Want>
        requires { self.old.width ≤ 64 }
        ensures width { self.new.width ≡ self.old.width }
        ensures value { OnOk result ((values : ℕ → ℕ) → Agree self.old.width (total values self.new.monomials.items)
            (total values self.old.monomials.items + monomial_value values monomial.now * number)) }
    {
        let by = Monomial::number(alloc, number);
        let product = monomial.times(alloc, self.width, &by)?;
        self.add(product)?;
        Ok(())
    }

    /// The sum as a difference of two, modulo 2 to the power of the width: its monomials whose coefficients are in the
    /// lower half of the numbers of the width, less the others and the number alone, with the opposite sign.
    pub fn sides(&self, alloc: Global, width: u32) -> Result<Sides, Want>
        requires { width ≤ 64 }
        ensures left { IfOk result (λ r. r.left.width ≡ width) }
        ensures right { IfOk result (λ r. r.right.width ≡ width) }
        ensures value { IfOk result (λ r. (values : ℕ → ℕ) → Agree width (total values r.left.monomials.items)
            (total values self.now.monomials.items + total values r.right.monomials.items)) }
    {
        let mut left = Sum::new(alloc, width);
        let mut right = Sum::new(alloc, width);
        for monomial in self.monomials.as_slice() {
            let (on_left, on_right) = signs(width, monomial);
            left.add_product(alloc, monomial, on_left)?;
            right.add_product(alloc, monomial, on_right)?;
        }
        Ok(Sides { left, right })
    }
}
