// Arithmetic on lists of coefficients.
ghost use Rattle.std.specs.Prelude.{◌≡◌, ◌++◌, [], true, false, IfOk, OnOk, IsErrOf};
ghost use Rattle.sy_linear_known.specs.Forms.{same_coefficients, before, added, scaled, subtracted, all_in_range};

use crate::form::FormEnd;
use crate::number::{difference, product, sum};
use std::alloc::Global;
use sy_seq::{Seq, Want};

/// A variable's number and its coefficient.
pub(crate) type Coefficient = (u32, i128);

/// Whether the two lists are the same.
pub(crate) fn are_same(cs: &[Coefficient], ds: &[Coefficient]) -> bool
    ensures { result ≡ same_coefficients cs.now ds.now }
{
    cs == ds
}

/// Appends a coefficient that isn't 0.
fn push_nonzero(list: &mut Seq<Coefficient>, variable: u32, number: i128) -> Result<(), Want>
    ensures { OnOk result (list.new ≡ list.old ++ before variable number []) }
{
    if number != 0 {
        list.push((variable, number))?;
    }
    Ok(())
}

/// Appends all coefficients.
pub(crate) fn push_all(list: &mut Seq<Coefficient>, others: &[Coefficient]) -> Result<(), Want>
    ensures { OnOk result (list.new ≡ list.old ++ others.now) }
{
    for coefficient in others {
        list.push(*coefficient)?;
    }
    Ok(())
}

/// The coefficients of a sum.
pub(crate) fn add(
    alloc: Global,
    cs: &[Coefficient],
    ds: &[Coefficient],
) -> Result<Seq<Coefficient>, FormEnd>
    requires left { all_in_range cs.now ≡ true }
    requires right { all_in_range ds.now ≡ true }
    ensures ok { IfOk result (λ es. es ≡ added cs.now ds.now) }
    ensures fits { IfOk result (λ es. all_in_range es ≡ true) }
    ensures unfit { IsErrOf result FormEnd.OutOfRange → all_in_range (added cs.now ds.now) ≡ false }
{
    let mut all = Seq::new(alloc);
    let mut i = 0;
    let mut j = 0;
    while i < cs.len() && j < ds.len() {
        let (variable, number) = cs[i];
        let (other, addend) = ds[j];
        if variable < other {
            all.push((variable, number))?;
            i += 1;
        } else if other < variable {
            all.push((other, addend))?;
            j += 1;
        } else {
            let Some(total) = sum(number, addend) else {
                return Err(FormEnd::OutOfRange);
            };
            push_nonzero(&mut all, variable, total)?;
            i += 1;
            j += 1;
        }
    }
    push_all(&mut all, &cs[i..])?;
    push_all(&mut all, &ds[j..])?;
    Ok(all)
}

/// The coefficients of a multiple.
pub(crate) fn scale(
    alloc: Global,
    factor: i128,
    cs: &[Coefficient],
) -> Result<Seq<Coefficient>, FormEnd>
    requires { all_in_range cs.now ≡ true }
    ensures ok { IfOk result (λ es. es ≡ scaled factor cs.now) }
    ensures fits { IfOk result (λ es. all_in_range es ≡ true) }
    ensures unfit { IsErrOf result FormEnd.OutOfRange → all_in_range (scaled factor cs.now) ≡ false }
{
    let mut all = Seq::new(alloc);
    for &(variable, number) in cs {
        let Some(total) = product(factor, number) else {
            return Err(FormEnd::OutOfRange);
        };
        push_nonzero(&mut all, variable, total)?;
    }
    Ok(all)
}

/// The coefficients of a difference.
pub(crate) fn subtract(
    alloc: Global,
    cs: &[Coefficient],
    ds: &[Coefficient],
) -> Result<Seq<Coefficient>, FormEnd>
    requires left { all_in_range cs.now ≡ true }
    requires right { all_in_range ds.now ≡ true }
    ensures ok { IfOk result (λ es. es ≡ subtracted cs.now ds.now) }
    ensures fits { IfOk result (λ es. all_in_range es ≡ true) }
    ensures unfit { IsErrOf result FormEnd.OutOfRange → all_in_range (subtracted cs.now ds.now) ≡ false }
{
    let mut all = Seq::new(alloc);
    let mut i = 0;
    let mut j = 0;
    while i < cs.len() && j < ds.len() {
        let (variable, number) = cs[i];
        let (other, subtrahend) = ds[j];
        if variable < other {
            all.push((variable, number))?;
            i += 1;
        } else if other < variable {
            let Some(opposite) = product(-1, subtrahend) else {
                return Err(FormEnd::OutOfRange);
            };
            push_nonzero(&mut all, other, opposite)?;
            j += 1;
        } else {
            let Some(rest) = difference(number, subtrahend) else {
                return Err(FormEnd::OutOfRange);
            };
            push_nonzero(&mut all, variable, rest)?;
            i += 1;
            j += 1;
        }
    }
    push_all(&mut all, &cs[i..])?;
    let opposites = match scale(alloc, -1, &ds[j..]) {
        Ok(opposites) => opposites,
        Err(end) => return Err(end),
    };
    push_all(&mut all, opposites.as_slice())?;
    Ok(all)
}
