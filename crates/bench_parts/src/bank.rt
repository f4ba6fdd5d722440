// A bank of ten operators over four arguments of 32 bits, built at random points: the words are the numbers of points,
// of sizes and of terms that are kept at most. It prints how many terms were tried and how many are kept; the status is
// 4 where it gets full.
ghost use Rattle.std.specs.Prelude.{◌≡◌, ◌∷◌, [], true, All, map, IfOk, IfSome};
ghost use Rattle.sy_terms.specs.Denoted.{val_of, vals_of, AreValid};
ghost use Rattle.sy_terms.specs.Theories.{valid, sort_of_value};
ghost use Rattle.sy_terms.specs.declared.op.Op.TheVariants as ops;
ghost use Rattle.sy_terms.specs.declared.sort.Sort.TheVariants as sorts;
ghost use Rattle.sy_bank.specs.Rows.{ArePointsOf};

use crate::words::{WANT, next, number};
use std::alloc::Global;
use sy_bank::{Bank, BankEnd, build};
use sy_grammar::well_formed;
use sy_grammar_base::{Grammar, Non, Part, Parts, Rule};
use sy_meaning_words::BvTheory;
use sy_terms::{Op, Seq, Sort, Theory, Value, Values, Want};

/// The status where the bank gets full.
const FULL: u8 = 4;

/// A random value of the sort, from the upper half of the state.
fn value<T: Theory>(sort: Sort, state: u64) -> Option<Value<T::Num>>
    ensures valid { IfSome result (λ v. valid (val_of T.denotes v) ≡ true) }
    ensures sort { IfSome result (λ v. sort_of_value (val_of T.denotes v) ≡ sort) }
{
    let number = T::of_number(sort, i128::from(state >> 32))?;
    Some(Value::Num(number))
}

/// A point of four random values.
fn point<T: Theory>(alloc: Global, sort: Sort, state: u64) -> Result<Option<Values<T>>, Want>
    ensures valid { IfOk result (λ found. IfSome found (λ point. AreValid T.denotes point)) }
    ensures sorts { IfOk result (λ found.
        IfSome found (λ point. map sort_of_value (vals_of T.denotes point) ≡ sort ∷ sort ∷ sort ∷ sort ∷ [])) }
{
    let Some(first) = value::<T>(sort, state) else {
        return Ok(None);
    };
    let Some(second) = value::<T>(sort, next(state)) else {
        return Ok(None);
    };
    let Some(third) = value::<T>(sort, next(next(state))) else {
        return Ok(None);
    };
    let Some(fourth) = value::<T>(sort, next(next(next(state)))) else {
        return Ok(None);
    };
    let mut point = Seq::new(alloc);
    point.push(first)?;
    point.push(second)?;
    point.push(third)?;
    point.push(fourth)?;
    Ok(Some(point))
}

/// So many points.
fn points<T: Theory>(alloc: Global, sort: Sort, count: u32) -> Result<Seq<Values<T>>, Want>
    ensures { IfOk result (λ points. ArePointsOf (sort ∷ sort ∷ sort ∷ sort ∷ []) (map (vals_of T.denotes) points)) }
{
    let mut points = Seq::new(alloc);
    let mut state = 1;
    for _ in 0..count {
        let Some(point) = point::<T>(alloc, sort, state)? else {
            return Ok(points);
        };
        points.push(point)?;
        state = next(next(next(next(state))));
    }
    Ok(points)
}

/// The sort, four times.
fn four(alloc: Global, sort: Sort) -> Result<Seq<Sort>, Want>
    ensures { IfOk result (λ sorts. sorts ≡ sort ∷ sort ∷ sort ∷ sort ∷ []) }
{
    let mut sorts = Seq::new(alloc);
    sorts.push(sort)?;
    sorts.push(sort)?;
    sorts.push(sort)?;
    sorts.push(sort)?;
    Ok(sorts)
}

/// The nonterminal of the arguments, and of the operators over itself.
fn nonterminals<T: Theory>(
    alloc: Global,
    sort: Sort,
    operators: &[Op],
) -> Result<Seq<Non<T>>, Want> {
    let mut rules = Seq::new(alloc);
    for position in 0..4u32 {
        rules.push(Rule::Term(Part::Var(position)))?;
    }
    for operator in operators {
        let mut parts = Parts::new(alloc);
        parts.push(Part::Non(0))?;
        parts.push(Part::Non(0))?;
        rules.push(Rule::Term(Part::App(*operator, parts)))?;
    }
    let mut nons = Seq::new(alloc);
    nons.push(Non { sort, rules })?;
    Ok(nons)
}

/// How many terms each operator was tried on at the size: one for each pair of kept terms of one size less in all.
fn pairs<T: Theory>(bank: &Bank<T>, size: u32) -> usize {
    let mut pairs = 0usize;
    for first in 1..size.saturating_sub(1) {
        let second = (size - 1).saturating_sub(first);
        let more = bank
            .kept(0, first)
            .len()
            .wrapping_mul(bank.kept(0, second).len());
        pairs = pairs.wrapping_add(more);
    }
    pairs
}

/// How many terms were tried, and how many are kept.
fn counted<T: Theory>(bank: &Bank<T>, operators: usize) -> (usize, usize) {
    let mut tried = 4usize;
    let mut kept = 0usize;
    for size in 0..=bank.upto() {
        tried = tried.wrapping_add(pairs(bank, size).wrapping_mul(operators));
        kept = kept.wrapping_add(bank.kept(0, size).len());
    }
    (tried, kept)
}

/// What is counted of the bank that was built; `None` where it got full.
fn counted_if_whole<T: Theory>(
    alloc: Global,
    built: Result<Bank<T>, BankEnd<T>>,
    operators: usize,
) -> Result<Option<(usize, usize)>, Want> {
    // in a box, since it takes long to prove that a bank is let go of in place
    let built = Box::new(alloc, built)?;
    match &*built {
        Ok(bank) => Ok(Some(counted(bank, operators))),
        Err(BankEnd::Full(_, _, _)) => Ok(None),
        Err(BankEnd::Want) => Err(Want {}),
    }
}

/// What is counted of the bank; `None` where it gets full or the grammar isn't well formed.
fn measured<T: Theory>(
    alloc: Global,
    sort: Sort,
    operators: &[Op],
    count: u32,
    upto: u32,
    cap: u32,
) -> Result<Option<(usize, usize)>, Want>
    requires { T.numeric sorts.Int ≡ true → T.owned ops.Neg ≡ true }
{
    let args = four(alloc, sort)?;
    let nons = nonterminals::<T>(alloc, sort, operators)?;
    let points = points::<T>(alloc, sort, count)?;
    let pool = Seq::new(alloc);
    let defs = Seq::new(alloc);
    if !well_formed(&args, &nons, &defs) {
        return Ok(None);
    }
    let grammar = Grammar::new(args, nons, &defs);
    counted_if_whole(
        alloc,
        build(alloc, &grammar, &defs, &pool, &points, upto, cap),
        operators.len(),
    )
}

/// The same over vectors of 32 bits.
fn measured_vectors(
    alloc: Global,
    count: u32,
    upto: u32,
    cap: u32,
) -> Result<Option<(usize, usize)>, Want> {
    let operators = [
        Op::BvAnd,
        Op::BvOr,
        Op::BvXor,
        Op::BvAdd,
        Op::BvSub,
        Op::BvMul,
        Op::BvUdiv,
        Op::BvUrem,
        Op::BvShl,
        Op::BvLshr,
    ];
    measured::<BvTheory>(alloc, Sort::Bits(32), &operators, count, upto, cap)
}

/// Builds the bank that the words ask for, and prints what is counted.
pub(crate) fn run(rt: &HostRuntime, words: &[String]) -> u8 {
    let found = measured_vectors(
        rt.alloc(),
        number(words, 1),
        number(words, 2),
        number(words, 3),
    );
    match found {
        Ok(Some((tried, kept))) => {
            let _ = println!(rt; "tried {tried} kept {kept}");
            0
        }
        Ok(None) => FULL,
        Err(_) => WANT,
    }
}
