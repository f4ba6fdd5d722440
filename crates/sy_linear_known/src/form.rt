// Linear forms over whole numbers.
ghost use Rattle.std.specs.Prelude.{◌≡◌, true, false, pos, [], IfOk, IsErrOf, IsOk};
ghost use Rattle.sy_linear_known.specs.Forms.{same_form, form_plus, times, form_minus, above, form_negation, form_is_in_range, constant_form, variable_form, all_in_range, scaled};

use crate::coefficients::{add, are_same, push_all, scale, subtract};
use crate::number::{difference, product, sum};
use std::alloc::{AllocFailed, Global};
use sy_seq::{Seq, Want};

/// A linear form: the sum of each coefficient times its variable, and a constant.
/// The coefficients aren't 0, and stand in ascending order of variable.
#[derive(Drop)]
pub struct Form {
    pub coefs: Seq<(u32, i128)>,
    pub constant: i128,
}

/// Why a form isn't built.
#[derive(Clone, Copy, Debug, PartialEq, Eq)]
pub enum FormEnd {
    /// A coefficient or the constant lies outside `-2^127` to `2^127 - 1`.
    OutOfRange,
    Want,
}

impl From<Want> for FormEnd {
    ghost use Rattle.sy_linear_known.specs.declared.form.FormEnd.TheVariants.{Want as WantOfMemory};

    ghost from_gives = { λ _ end. end ≡ WantOfMemory };

    fn from(_: Want) -> FormEnd {
        FormEnd::Want
    }
}

impl<X: Drop> From<AllocFailed<X>> for FormEnd {
    ghost use Rattle.sy_linear_known.specs.declared.form.FormEnd.TheVariants.{Want as WantOfMemory};

    ghost from_gives = { λ _ end. end ≡ WantOfMemory };

    fn from(_: AllocFailed<X>) -> FormEnd {
        FormEnd::Want
    }
}

impl Form {
    /// The form of a number. It takes no memory.
    pub fn number(alloc: Global, constant: i128) -> Form
        ensures { result ≡ constant_form constant }
    {
        Form {
            coefs: Seq::new(alloc),
            constant,
        }
    }

    /// The form of a variable.
    pub fn variable(alloc: Global, variable: u32) -> Result<Form, Want>
        ensures { IfOk result (λ form. form ≡ variable_form variable) }
    {
        let mut coefs = Seq::new(alloc);
        coefs.push((variable, 1))?;
        Ok(Form { coefs, constant: 0 })
    }

    /// The same form.
    pub fn copy(&self, alloc: Global) -> Result<Form, Want>
        ensures { IfOk result (λ form. form ≡ self.now) }
    {
        let mut coefs = Seq::new(alloc);
        push_all(&mut coefs, self.coefs.as_slice())?;
        Ok(Form {
            coefs,
            constant: self.constant,
        })
    }

    /// Whether the two have the same coefficients and the same constant.
    pub fn is_same(&self, other: &Form) -> bool
        ensures { result ≡ same_form self.now other.now }
    {
        self.constant == other.constant && are_same(self.coefs.as_slice(), other.coefs.as_slice())
    }

    /// The sum; `OutOfRange` exactly where a coefficient or the constant of it leaves 128 bits.
    pub fn plus(&self, alloc: Global, other: &Form) -> Result<Form, FormEnd>
        requires left { form_is_in_range self.now ≡ true }
        requires right { form_is_in_range other.now ≡ true }
        ensures ok { IfOk result (λ form. form ≡ form_plus self.now other.now) }
        ensures fits { IfOk result (λ form. form_is_in_range form ≡ true) }
        ensures unfit { IsErrOf result FormEnd.OutOfRange → form_is_in_range (form_plus self.now other.now) ≡ false }
    {
        let Some(constant) = sum(self.constant, other.constant) else {
            return Err(FormEnd::OutOfRange);
        };
        let coefs = add(alloc, self.coefs.as_slice(), other.coefs.as_slice())?;
        Ok(Form { coefs, constant })
    }

    /// The multiple; `OutOfRange` exactly where a coefficient or the constant of it leaves 128 bits.
    pub fn times(&self, alloc: Global, factor: i128) -> Result<Form, FormEnd>
        requires { form_is_in_range self.now ≡ true }
        ensures ok { IfOk result (λ form. form ≡ times factor self.now) }
        ensures fits { IfOk result (λ form. form_is_in_range form ≡ true) }
        ensures unfit { IsErrOf result FormEnd.OutOfRange → form_is_in_range (times factor self.now) ≡ false }
    {
        let Some(constant) = product(factor, self.constant) else {
            return Err(FormEnd::OutOfRange);
        };
        let coefs = scale(alloc, factor, self.coefs.as_slice())?;
        Ok(Form { coefs, constant })
    }

    /// The difference; `OutOfRange` exactly where a coefficient or the constant of it leaves 128 bits.
    pub fn minus(&self, alloc: Global, other: &Form) -> Result<Form, FormEnd>
        requires left { form_is_in_range self.now ≡ true }
        requires right { form_is_in_range other.now ≡ true }
        ensures ok { IfOk result (λ form. form ≡ form_minus self.now other.now) }
        ensures fits { IfOk result (λ form. form_is_in_range form ≡ true) }
        ensures unfit { IsErrOf result FormEnd.OutOfRange → form_is_in_range (form_minus self.now other.now) ≡ false }
    {
        let Some(constant) = difference(self.constant, other.constant) else {
            return Err(FormEnd::OutOfRange);
        };
        let coefs = subtract(alloc, self.coefs.as_slice(), other.coefs.as_slice())?;
        Ok(Form { coefs, constant })
    }

    /// The form that is at least 0 exactly where this one is above the other: their difference less 1; `OutOfRange`
    /// exactly where a coefficient or the constant of it leaves 128 bits.
    pub fn above(&self, alloc: Global, other: &Form) -> Result<Form, FormEnd>
        requires left { form_is_in_range self.now ≡ true }
        requires right { form_is_in_range other.now ≡ true }
        ensures ok { IfOk result (λ form. form ≡ above self.now other.now) }
        ensures fits { IfOk result (λ form. form_is_in_range form ≡ true) }
        ensures unfit { IsErrOf result FormEnd.OutOfRange → form_is_in_range (above self.now other.now) ≡ false }
    {
        let Some(constant) = sum(self.constant, -1 - other.constant) else {
            return Err(FormEnd::OutOfRange);
        };
        let coefs = subtract(alloc, self.coefs.as_slice(), other.coefs.as_slice())?;
        Ok(Form { coefs, constant })
    }

    /// The form that is at least 0 exactly where this one isn't; `OutOfRange` exactly where a coefficient
    /// of it leaves 128 bits.
    pub fn negation(&self, alloc: Global) -> Result<Form, FormEnd>
        requires { form_is_in_range self.now ≡ true }
        ensures ok { IfOk result (λ form. form ≡ form_negation self.now) }
        ensures fits { IfOk result (λ form. form_is_in_range form ≡ true) }
        ensures unfit { IsErrOf result FormEnd.OutOfRange → form_is_in_range (form_negation self.now) ≡ false }
    {
        let coefs = scale(alloc, -1, self.coefs.as_slice())?;
        Ok(Form {
            coefs,
            constant: -1 - self.constant,
        })
    }
}
