// Values in memory that are made in one call.
ghost use Rattle.std.specs.Prelude.{◌≡◌, IfOk};

use std::alloc::Global;
use sy_linear_known::Form;
use sy_terms::{Seq, Want};

/// Appends the item, which is let go of here where memory is refused.
pub(crate) fn push<X: Drop>(items: &mut Vec<X>, item: X) -> Result<(), Want> {
    items.push(item)?;
    Ok(())
}

/// The value in a box, which is let go of here where memory is refused.
pub(crate) fn boxed<X: Drop>(alloc: Global, value: X) -> Result<Box<X>, Want> {
    let value = Box::new(alloc, value)?;
    Ok(value)
}

/// The list of these items.
pub(crate) fn list<X: Copy>(alloc: Global, items: &[X]) -> Result<Seq<X>, Want>
    ensures { IfOk result (λ list. list ≡ items.now) }
{
    let items = Vec::from_slice(alloc, items)?;
    Ok(Seq::from(items))
}

/// The form of these coefficients and this constant.
pub(crate) fn form(alloc: Global, coefs: &[(u32, i128)], constant: i128) -> Result<Form, Want> {
    let coefs = list(alloc, coefs)?;
    Ok(Form { coefs, constant })
}
