// Combinations of forms by fractions.
ghost use Rattle.std.specs.Prelude.{◌≡◌, ◌≤ℤ◌, ◌+◌, ◌<◌, ◌^◌, ◌++◌, length, List, pos, [], true, false, IfOk, OnOk, IsErrOf, Option, Some, None};
ghost use Rattle.std.specs.List.{list_all};
ghost use Rattle.sy_frac.specs.Kinds as kinds;
ghost use Rattle.sy_linear_known.specs.Forms.{before};
ghost use Rattle.sy_linear_known.specs.Trees.{forms};
ghost use Rattle.sy_linear.specs.Combining as spec;

use crate::exact::{floor, is_whole, multiple, over_whole, plus_multiple};
use std::alloc::Global;
use sy_frac::{Frac, is_multiplier};
use sy_linear_known::{Fact, Form, FormEnd};
use sy_seq::{Seq, Want};

/// A variable's part of a combination.
#[derive(Drop)]
pub(crate) struct Share {
    pub(crate) variable: u32,
    pub(crate) weight: Frac,
}

/// A linear form over the rational numbers; the shares stand in ascending order of variable.
#[derive(Drop)]
pub(crate) struct Combination {
    pub(crate) shares: Seq<Share>,
    pub(crate) constant: Frac,
}

/// Whether none of the fractions is negative.
fn all_multipliers(fractions: &[Frac]) -> bool
    ensures { result ≡ list_all kinds.is_multiplier fractions.now }
{
    fractions.iter().all(|fraction| is_multiplier(fraction))
}

/// How many of the facts are on forms.
fn count_forms(facts: &[Fact]) -> usize
    ensures { result ≡ length (forms facts.now) }
{
    let mut count = 0;
    for fact in facts {
        if let Fact::AtLeast(_) = fact {
            count += 1;
        }
    }
    count
}

/// Whether there is one multiplier for each form, none of them negative.
pub(crate) fn are_multipliers(multipliers: &[Frac], facts: &[Fact]) -> bool
    ensures { result ≡ spec.are_multipliers multipliers.now (forms facts.now) }
{
    multipliers.len() == count_forms(facts) && all_multipliers(multipliers)
}

/// Appends a share.
fn push_share(list: &mut Seq<Share>, variable: u32, weight: Frac) -> Result<(), Want>
    ensures { OnOk result ((rest : Option (List Share)) →
        spec.following list.old (spec.share_before variable (Some weight) rest) ≡ spec.following list.new rest) }
{
    list.push(Share { variable, weight })?;
    Ok(())
}

/// The number of a coefficient.
pub(crate) fn number_of(coefficient: &(u32, i128)) -> i128
    ensures { result ≡ coefficient.now.1 }
{
    coefficient.1
}

/// Fills the empty list with the shares and a multiple of the coefficients.
fn put_coefficients(
    all: &mut Seq<Share>,
    factor: &Frac,
    coefficients: &[(u32, i128)],
    shares: &[Share],
) -> Result<(), FormEnd>
    requires { all.old ≡ [] }
    ensures ok { OnOk result (spec.plus_coefficients factor.now coefficients.now shares.now ≡ Some all.new) }
    ensures unfit { IsErrOf result FormEnd.OutOfRange →
        spec.plus_coefficients factor.now coefficients.now shares.now ≡ None }
{
    let mut cs = coefficients;
    let mut qs = shares;
    while let Some((first, others)) = cs.split_first() {
        let variable = first.0;
        let number = number_of(first);
        let Some((share, later)) = qs.split_first() else {
            let Some(weight) = multiple(factor, number) else {
                return Err(FormEnd::OutOfRange);
            };
            push_share(all, variable, weight)?;
            cs = others;
            continue;
        };
        if variable < share.variable {
            let Some(weight) = multiple(factor, number) else {
                return Err(FormEnd::OutOfRange);
            };
            push_share(all, variable, weight)?;
            cs = others;
        } else if share.variable < variable {
            push_share(all, share.variable, share.weight)?;
            qs = later;
        } else {
            let Some(weight) = plus_multiple(factor, number, &share.weight) else {
                return Err(FormEnd::OutOfRange);
            };
            push_share(all, variable, weight)?;
            cs = others;
            qs = later;
        }
    }
    push_all(all, qs)?;
    Ok(())
}

/// The shares with a multiple of the coefficients.
fn plus_coefficients(
    alloc: Global,
    factor: &Frac,
    coefficients: &[(u32, i128)],
    shares: &[Share],
) -> Result<Seq<Share>, FormEnd>
    ensures ok { IfOk result (λ qs. spec.plus_coefficients factor.now coefficients.now shares.now ≡ Some qs) }
    ensures unfit { IsErrOf result FormEnd.OutOfRange →
        spec.plus_coefficients factor.now coefficients.now shares.now ≡ None }
{
    let mut all = Seq::new(alloc);
    match put_coefficients(&mut all, factor, coefficients, shares) {
        Ok(()) => Ok(all),
        Err(end) => {
            drop(all);
            Err(end)
        }
    }
}

/// Appends copies of all shares.
fn push_all(list: &mut Seq<Share>, shares: &[Share]) -> Result<(), Want>
    ensures { OnOk result (list.new ≡ list.old ++ shares.now) }
{
    for share in shares {
        list.push(Share {
            variable: share.variable,
            weight: share.weight,
        })?;
    }
    Ok(())
}

/// The constant of a form.
pub(crate) fn constant_of(form: &Form) -> i128
    ensures { result ≡ form.now.constant }
{
    form.constant
}

/// The combination and a multiple of the form.
fn plus_form(
    alloc: Global,
    combination: &Combination,
    factor: &Frac,
    form: &Form,
) -> Result<Combination, FormEnd>
    ensures ok { IfOk result (λ c. spec.checked_plus_form combination.now factor.now form.now ≡ Some c) }
    ensures unfit { IsErrOf result FormEnd.OutOfRange →
        spec.checked_plus_form combination.now factor.now form.now ≡ None }
{
    let number = constant_of(form);
    let Some(constant) = plus_multiple(factor, number, &combination.constant) else {
        return Err(FormEnd::OutOfRange);
    };
    let coefficients = form.coefs.as_slice();
    match plus_coefficients(alloc, factor, coefficients, combination.shares.as_slice()) {
        Ok(shares) => Ok(Combination { shares, constant }),
        Err(end) => Err(end),
    }
}

/// The combination of the forms among the facts; `OutOfRange` exactly where a number leaves 128 bits.
pub(crate) fn combined(
    alloc: Global,
    multipliers: &[Frac],
    facts: &[Fact],
) -> Result<Combination, FormEnd>
    ensures ok { IfOk result (λ c. spec.checked_combination multipliers.now (forms facts.now) ≡ Some c) }
    ensures unfit { IsErrOf result FormEnd.OutOfRange →
        spec.checked_combination multipliers.now (forms facts.now) ≡ None }
{
    let mut sum = nothing(alloc);
    let mut left = multipliers;
    for fact in facts {
        let form = match fact {
            Fact::AtLeast(form) => form,
            Fact::Is(_, _) => continue,
        };
        let Some((factor, others)) = left.split_first() else {
            return Ok(sum);
        };
        match plus_form(alloc, &sum, factor, form) {
            Ok(next) => sum = next,
            Err(end) => return Err(end),
        }
        left = others;
    }
    Ok(sum)
}

/// The combination of no forms. It takes no memory.
fn nothing(alloc: Global) -> Combination
    ensures { result ≡ spec.empty_combination }
{
    let Some(constant) = Frac::new(0, 1) else {
        unreachable!();
    };
    Combination {
        shares: Seq::new(alloc),
        constant,
    }
}

/// Whether the share is 0.
fn is_zero(share: &Share) -> bool
    ensures { result ≡ spec.is_zero share.now }
{
    share.weight.num() == 0
}

/// Whether all shares are 0.
fn all_zero(shares: &[Share]) -> bool
    ensures { result ≡ list_all spec.is_zero shares.now }
{
    shares.iter().all(|share| is_zero(share))
}

/// Whether the combination is a negative constant.
pub(crate) fn is_negative_constant(combination: &Combination) -> bool
    ensures { result ≡ spec.is_negative_constant combination.now }
{
    all_zero(combination.shares.as_slice()) && combination.constant.num() < 0
}

/// The shares divided by a whole number.
fn divided_shares(alloc: Global, divisor: i128, shares: &[Share]) -> Result<Seq<Share>, FormEnd>
    requires { pos 1 ≤ℤ divisor }
    ensures ok { IfOk result (λ qs. spec.divided_shares divisor shares.now ≡ Some qs) }
    ensures unfit { IsErrOf result FormEnd.OutOfRange → spec.divided_shares divisor shares.now ≡ None }
{
    let mut all = Seq::new(alloc);
    let mut left = shares;
    while let Some((share, others)) = left.split_first() {
        let Some(weight) = over_whole(divisor, &share.weight) else {
            return Err(FormEnd::OutOfRange);
        };
        push_share(&mut all, share.variable, weight)?;
        left = others;
    }
    Ok(all)
}

/// The combination divided by a whole number; `OutOfRange` exactly where a number leaves 128 bits.
pub(crate) fn divided(
    alloc: Global,
    divisor: i128,
    combination: &Combination,
) -> Result<Combination, FormEnd>
    requires { pos 1 ≤ℤ divisor }
    ensures ok { IfOk result (λ c. spec.divided divisor combination.now ≡ Some c) }
    ensures unfit { IsErrOf result FormEnd.OutOfRange → spec.divided divisor combination.now ≡ None }
{
    let Some(constant) = over_whole(divisor, &combination.constant) else {
        return Err(FormEnd::OutOfRange);
    };
    match divided_shares(alloc, divisor, combination.shares.as_slice()) {
        Ok(shares) => Ok(Combination { shares, constant }),
        Err(end) => Err(end),
    }
}

/// Whether the share is a whole number.
fn has_whole_weight(share: &Share) -> bool
    ensures { result ≡ spec.has_whole_weight share.now }
{
    is_whole(&share.weight)
}

/// Whether all shares are whole numbers.
fn all_whole(shares: &[Share]) -> bool
    ensures { result ≡ list_all spec.has_whole_weight shares.now }
{
    shares.iter().all(|share| has_whole_weight(share))
}

/// Appends a coefficient that isn't 0.
fn push_nonzero(list: &mut Seq<(u32, i128)>, variable: u32, number: i128) -> Result<(), Want>
    ensures { OnOk result (list.new ≡ list.old ++ before variable number []) }
{
    if number != 0 {
        list.push((variable, number))?;
    }
    Ok(())
}

/// The numerators, without those of 0.
fn numerators(alloc: Global, shares: &[Share]) -> Result<Seq<(u32, i128)>, Want>
    ensures { IfOk result (λ cs. cs ≡ spec.numerators shares.now) }
{
    let mut all = Seq::new(alloc);
    for share in shares {
        push_nonzero(&mut all, share.variable, share.weight.num())?;
    }
    Ok(all)
}

/// The form with the constant rounded down; `None` exactly where a share isn't a whole number.
pub(crate) fn rounded(alloc: Global, combination: &Combination) -> Result<Option<Form>, Want>
    ensures { IfOk result (λ form. form ≡ spec.rounded combination.now) }
{
    let shares = combination.shares.as_slice();
    if !all_whole(shares) {
        return Ok(None);
    }
    let coefs = numerators(alloc, shares)?;
    Ok(Some(Form {
        coefs,
        constant: floor(&combination.constant),
    }))
}
