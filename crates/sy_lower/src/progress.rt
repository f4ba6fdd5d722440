// How far a lowering is: the variables that it made, their side conditions, and the divisions that they stand for.
ghost use Rattle.std.specs.Prelude.{◌≡◌, ◌+◌, ◌-◌, ◌++◌, ◌∷◌, [], length, pos, unsigned_abs, IfOk, OnOk};
ghost use Rattle.sy_terms.specs.Values.{Whole};
ghost use Rattle.sy_terms.specs.Expr.{append};
ghost use Rattle.sy_terms.specs.Denoted.{expr_of, exprs_of};
ghost use Rattle.sy_lower_laws.specs.Lowering as spec;
ghost use Rattle.sy_lower.specs.Stored.{progress_in, Gives, GivesQuotient};

use crate::pairs::{Pair, Pairs};
use crate::terms::{binary, number};
use std::alloc::{AllocError, Global};
use sy_meaning_integers::IntTheory;
use sy_terms::{Op, Sort, Term, Terms, Want};

/// How far a lowering is.
#[derive(Drop)]
pub(crate) struct Progress {
    /// The sorts of the query's variables, and then of the fresh ones.
    pub sorts: Vec<Sort>,
    /// The side conditions on the fresh variables, in order.
    pub sides: Terms<IntTheory>,
    pub pairs: Pairs,
}

/// A fresh variable of the sort.
fn fresh(sorts: &mut Vec<Sort>, sort: Sort) -> Result<u32, Want>
    ensures variable { IfOk result (λ variable. variable ≡ length sorts.old.items) }
    ensures sorts { OnOk result (sorts.new.items ≡ sorts.old.items ++ sort ∷ []) }
{
    let Ok(variable) = u32::try_from(sorts.len()) else {
        return Err(AllocError);
    };
    sorts.push(sort)?;
    Ok(variable)
}

/// Fresh variables of a quotient, which is given, and of a remainder, which comes next.
fn fresh_pair(sorts: &mut Vec<Sort>) -> Result<(u32, u32), Want>
    ensures variables { IfOk result (λ found. (found.0 ≡ length sorts.old.items) × (found.1 ≡ found.0 + 1)) }
    ensures sorts { OnOk result (sorts.new.items ≡ sorts.old.items ++ Sort.Int ∷ Sort.Int ∷ []) }
{
    let quotient = fresh(sorts, Sort::Int)?;
    let remainder = fresh(sorts, Sort::Int)?;
    Ok((quotient, remainder))
}

/// `divisor * quotient + remainder`.
fn recomposed(
    alloc: Global,
    divisor: i128,
    quotient: u32,
    remainder: u32,
) -> Result<Term<IntTheory>, Want>
    requires { remainder ≡ quotient + 1 }
    ensures { IfOk result (λ term. expr_of Whole term ≡ spec.recomposed divisor quotient) }
{
    let product = binary(alloc, Op::Mul, number(divisor), Term::Var(quotient))?;
    let sum = binary(alloc, Op::Add, product, Term::Var(remainder))?;
    Ok(sum)
}

/// The greatest remainder of a division by the number: one less than its absolute value.
fn greatest_remainder(divisor: i128) -> i128
    ensures { result ≡ pos (unsigned_abs divisor - 1) }
{
    divisor.unsigned_abs().saturating_sub(1) as i128
}

/// Adds the side conditions of a division: the dividend is recomposed, and the remainder is from 0 to the greatest one.
fn add_sides(
    alloc: Global,
    sides: &mut Terms<IntTheory>,
    dividend: Term<IntTheory>,
    divisor: i128,
    quotient: u32,
    remainder: u32,
) -> Result<(), Want>
    requires { remainder ≡ quotient + 1 }
    ensures { OnOk result (exprs_of Whole sides.new.items.items ≡ append (exprs_of Whole sides.old.items.items)
        (spec.division_sides (expr_of Whole dividend) divisor quotient)) }
{
    let whole = recomposed(alloc, divisor, quotient, remainder)?;
    let is_whole = binary(alloc, Op::Equal, dividend, whole)?;
    sides.push(is_whole)?;
    let has_least = binary(alloc, Op::Le, number(0), Term::Var(remainder))?;
    sides.push(has_least)?;
    let greatest = number(greatest_remainder(divisor));
    let has_most = binary(alloc, Op::Le, Term::Var(remainder), greatest)?;
    sides.push(has_most)?;
    Ok(())
}

impl Progress {
    /// Nothing is made yet, over variables of these sorts.
    pub fn new(alloc: Global, sorts: &[Sort]) -> Result<Progress, Want>
        ensures { IfOk result (λ progress. progress_in progress ≡ spec.begun sorts.now) }
    {
        let sorts = sorts.to_vec(alloc)?;
        Ok(Progress {
            sorts,
            sides: Terms::new(alloc),
            pairs: Pairs::new(alloc),
        })
    }

    /// A fresh variable of the sort, which equals the term.
    pub fn equate(
        &mut self,
        alloc: Global,
        sort: Sort,
        term: Term<IntTheory>,
    ) -> Result<Term<IntTheory>, Want>
        ensures { IfOk result (λ variable. Gives (expr_of Whole variable) (progress_in self.new)
            (spec.equated (progress_in self.old) sort (expr_of Whole term))) }
    {
        let variable = fresh(&mut self.sorts, sort)?;
        let equation = binary(alloc, Op::Equal, Term::Var(variable), term)?;
        self.sides.push(equation)?;
        Ok(Term::Var(variable))
    }

    /// The variable of the quotient of a division that wasn't met before; that of the remainder comes next.
    fn divide_anew(
        &mut self,
        alloc: Global,
        dividend: Term<IntTheory>,
        divisor: i128,
    ) -> Result<u32, Want>
        ensures { IfOk result (λ quotient. GivesQuotient quotient (progress_in self.new)
            (spec.fresh_pair (progress_in self.old) (expr_of Whole dividend) divisor)) }
    {
        let made = fresh_pair(&mut self.sorts)?;
        let copy = dividend.copy(alloc)?;
        self.pairs.add(Pair {
            dividend: copy,
            divisor,
            quotient: made.0,
        })?;
        add_sides(alloc, &mut self.sides, dividend, divisor, made.0, made.1)?;
        Ok(made.0)
    }

    /// The variable of the quotient of a division by a number; that of the remainder comes next. Where the same
    /// division was met before, it is the one of then.
    pub fn divide(
        &mut self,
        alloc: Global,
        dividend: Term<IntTheory>,
        divisor: i128,
    ) -> Result<u32, Want>
        ensures { IfOk result (λ quotient. GivesQuotient quotient (progress_in self.new)
            (spec.paired (progress_in self.old) (expr_of Whole dividend) divisor)) }
    {
        match self.pairs.find(&dividend, divisor) {
            Some(quotient) => Ok(quotient),
            None => {
                let quotient = self.divide_anew(alloc, dividend, divisor)?;
                Ok(quotient)
            }
        }
    }
}
