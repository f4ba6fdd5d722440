// One random term that is evaluated many times: the words are the theory (`bv` or `lia`), the number of leaves, and how
// often. It prints how many nodes the term has, and the sum of the values.
ghost use Rattle.std.specs.Prelude.{◌≡◌, ◌∷◌, [], true, All, map, IfOk, IfSome};
ghost use Rattle.sy_terms.specs.Denoted.{val_of, vals_of, AreValid};
ghost use Rattle.sy_terms.specs.Theories.{valid, sort_of_value};

use crate::random::{Kit, add_random_term};
use crate::words::{REFUSED, WANT, number, word};
use std::alloc::Global;
use sy_meaning::{Eval, Signature, evaluate, term_sort};
use sy_meaning_integers::IntTheory;
use sy_meaning_words::BvTheory;
use sy_terms::{Defs, Op, Seq, Sort, Term, Terms, Theory, Value, Want};

/// The value of the sort that is this number.
fn value<T: Theory>(sort: Sort, number: u32) -> Option<Value<T::Num>>
    ensures valid { IfSome result (λ v. valid (val_of T.denotes v) ≡ true) }
    ensures sort { IfSome result (λ v. sort_of_value (val_of T.denotes v) ≡ sort) }
{
    let number = T::of_number(sort, i128::from(number))?;
    Some(Value::Num(number))
}

/// The values of the three variables.
fn values<T: Theory>(
    alloc: Global,
    sort: Sort,
    round: u32,
) -> Result<Option<Vec<Value<T::Num>>>, Want>
    ensures valid { IfOk result (λ found. IfSome found (λ vs. AreValid T.denotes vs.items)) }
    ensures sorts { IfOk result (λ found.
        IfSome found (λ vs. map sort_of_value (vals_of T.denotes vs.items) ≡ sort ∷ sort ∷ sort ∷ [])) }
{
    let Some(first) = value::<T>(sort, round) else {
        return Ok(None);
    };
    let Some(second) = value::<T>(sort, round / 3) else {
        return Ok(None);
    };
    let Some(third) = value::<T>(sort, round ^ 21) else {
        return Ok(None);
    };
    let mut all = Vec::with_capacity(alloc, 3)?;
    all.push(first)?;
    all.push(second)?;
    all.push(third)?;
    Ok(Some(all))
}

/// The sum of the term's values at so many assignments; `None` where it doesn't fit three variables of the sort.
fn sum_of_values<T: Theory>(
    alloc: Global,
    sort: Sort,
    term: &Term<T>,
    rounds: u32,
) -> Result<Option<i128>, Want> {
    let defs: Defs<T> = Seq::new(alloc);
    let wanted: Seq<Signature> = Seq::new(alloc);
    let sorts = [sort, sort, sort];
    let Some(_) = term_sort(alloc, defs.as_slice(), wanted.as_slice(), &sorts, term)? else {
        return Ok(None);
    };
    let mut total = 0i128;
    for round in 0..rounds {
        let Some(values) = values::<T>(alloc, sort, round)? else {
            return Ok(None);
        };
        match evaluate(alloc, &defs, values.as_slice(), term) {
            Ok(Value::Num(number)) => total = total.wrapping_add(T::number(number)),
            Ok(Value::Truth(_)) => (),
            Err(Eval::Range) => (),
            Err(Eval::Want) => return Err(Want {}),
        }
    }
    Ok(Some(total))
}

/// The number of nodes, and the sum of the term's values.
fn measured<T: Theory>(
    alloc: Global,
    kit: &Kit,
    leaves: u32,
    rounds: u32,
) -> Result<Option<(u64, i128)>, Want> {
    let mut terms = Terms::new(alloc);
    add_random_term::<T>(alloc, kit, leaves, &mut terms)?;
    let Some(term) = terms.get(0) else {
        return Ok(None);
    };
    match sum_of_values(alloc, kit.sort, term, rounds) {
        Ok(Some(total)) => Ok(Some((term.size(u64::MAX), total))),
        Ok(None) => Ok(None),
        Err(want) => Err(want),
    }
}

/// The measurement in one of the theories.
fn measured_in(
    alloc: Global,
    theory: &str,
    leaves: u32,
    rounds: u32,
) -> Result<Option<(u64, i128)>, Want> {
    if theory == "lia" {
        let kit = Kit {
            sort: Sort::Int,
            binary: &[Op::Add, Op::Sub],
            less: Op::Lt,
        };
        measured::<IntTheory>(alloc, &kit, leaves, rounds)
    } else {
        let kit = Kit {
            sort: Sort::Bits(64),
            binary: &[
                Op::BvAdd,
                Op::BvSub,
                Op::BvAnd,
                Op::BvOr,
                Op::BvXor,
                Op::BvMul,
                Op::BvLshr,
            ],
            less: Op::BvUlt,
        };
        measured::<BvTheory>(alloc, &kit, leaves, rounds)
    }
}

/// Evaluates the term that the words ask for, and prints what is counted.
pub(crate) fn run(rt: &HostRuntime, words: &[String]) -> u8 {
    let found = measured_in(
        rt.alloc(),
        word(words, 1),
        number(words, 2),
        number(words, 3),
    );
    match found {
        Ok(Some((nodes, total))) => {
            let _ = println!(rt; "nodes {nodes} sum {total}");
            0
        }
        Ok(None) => REFUSED,
        Err(_) => WANT,
    }
}
