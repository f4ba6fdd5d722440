// Multipliers that a row of a tableau suggests for a cut. Nothing is said of them: what they give is checked.
use std::alloc::Global;
use sy_frac::Frac;
use sy_seq::{Seq, Want};
use sy_simplex::{Tableau, whole, zero};

/// The greatest scale by which a row is tried.
const MOST: u32 = 1000;

/// What the coefficient times the scale is above a whole number.
fn multiplier(coefficient: &Frac, scale: i128) -> Option<Frac> {
    let product = whole(scale)?.mul(coefficient)?;
    product.sub(&whole(product.floor())?)
}

/// The form of the column's variable.
fn form_of(tableau: &Tableau, column: usize) -> Option<usize> {
    let variable = *tableau.columns.get(column)?;
    let form = variable.checked_sub(tableau.vars)?;
    Some(form as usize)
}

/// Whether the row has a free variable, and a value that isn't whole.
fn is_broken_row(tableau: &Tableau, row: usize) -> bool {
    let Some(variable) = tableau.basics.get(row) else {
        return false;
    };
    let Some(value) = tableau.values.get(row) else {
        return false;
    };
    *variable < tableau.vars && value.den() != 1
}

/// The least multiple of the scale by which the coefficient is whole, where it is at most 1,000.
fn whole_multiple(scale: u32, coefficient: &Frac) -> Option<u32> {
    let factor = whole(i128::from(scale))?.mul(coefficient)?.den();
    if factor > i128::from(MOST) {
        return None;
    }
    let multiple = scale.checked_mul(factor as u32)?;
    if multiple > MOST {
        None
    } else {
        Some(multiple)
    }
}

/// The least whole number by which the row's coefficients of free variables are whole, where the row has a free
/// variable and a value that isn't whole, and the number is at most 1,000.
pub fn scale_of(tableau: &Tableau, row: usize) -> Option<u32> {
    if !is_broken_row(tableau, row) {
        return None;
    }
    let coefs = tableau.rows.get(row)?.as_slice();
    let mut scale = 1u32;
    for at in 0..coefs.len() {
        let variable = *tableau.columns.get(at)?;
        if variable < tableau.vars {
            scale = whole_multiple(scale, &coefs[at])?;
        }
    }
    Some(scale)
}

/// The multipliers of the forms by the row, so many times: for the form of a column, what the coefficient times the
/// scale is above a whole number, and 0 for the others. None where a number leaves 128 bits, or the tableau has no such
/// row.
pub fn multipliers(
    alloc: Global,
    tableau: &Tableau,
    row: usize,
    scale: i128,
) -> Result<Option<Seq<Frac>>, Want> {
    let Some(coefs) = tableau.rows.get(row) else {
        return Ok(None);
    };
    let mut all = Vec::new(alloc);
    for _form in 0..tableau.bounds.len() {
        all.push(zero())?;
    }
    let coefs = coefs.as_slice();
    for at in 0..coefs.len() {
        let Some(form) = form_of(tableau, at) else {
            continue;
        };
        let Some(multiplier) = multiplier(&coefs[at], scale) else {
            return Ok(None);
        };
        if form < all.len() {
            all[form] = multiplier;
        }
    }
    Ok(Some(Seq::from(all)))
}
