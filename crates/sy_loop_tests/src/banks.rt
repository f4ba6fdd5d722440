// Banks of small grammars over one argument: how many terms are kept at each size, which ones, and how the search for
// them ends.

use crate::parts::{nonterminals, part};
use crate::points::{points, value};
use crate::rows::{field, number, one};
use std::alloc::Global;
use std::process::Abort;
use sy_bank::{Bank, BankEnd, build, grow};
use sy_bank_level::{Kept, filled_part};
use sy_grammar::well_formed;
use sy_grammar_base::{Grammar, Non};
use sy_terms::{Seq, Sort, Theory, Values};

/// The bank of these nonterminals up to one size, grown to another if that is greater and nothing was dropped before.
/// Eight parameters: a test names each part of its bank.
fn bank_of<T: Theory>(
    rt: &impl Abort,
    alloc: Global,
    sort: Sort,
    nons: Seq<Non<T>>,
    values: &str,
    pool: &Values<T>,
    upto: (u32, u32),
    cap: u32,
) -> Result<Bank<T>, BankEnd<T>> {
    let args = one(rt, alloc, sort);
    let defs = Seq::new(alloc);
    assert!(rt; well_formed(&args, &nons, &defs));
    let grammar = Grammar::new(args, nons, &defs);
    let points = points::<T>(rt, alloc, sort, values);
    match build(alloc, &grammar, &defs, pool, &points, upto.0, cap) {
        Ok(bank) => {
            if bank.overflow().is_some() || bank.upto() >= upto.1 {
                return Ok(bank);
            }
            grow(alloc, bank, &grammar, &defs, pool, upto.1, cap)
        }
        end => end,
    }
}

/// Whether the bank keeps so many terms for all of so many nonterminals at each size, and none at those after the last.
fn keeps<T: Theory>(bank: &Bank<T>, nonterminals: u32, counts: &str) -> bool {
    let mut words = counts.split(' ');
    for size in 0..=bank.upto() {
        let mut count = 0usize;
        for nonterminal in 0..nonterminals {
            count = count.saturating_add(bank.kept(nonterminal, size).len());
        }
        let told = words.next().unwrap_or("").parse().unwrap_or(0);
        if count != told {
            return false;
        }
    }
    words.next().is_none()
}

/// Whether the kept term is that of this text.
fn is_term<T: Theory>(
    rt: &impl Abort,
    alloc: Global,
    sort: Sort,
    kept: &Kept<T>,
    text: &str,
) -> bool {
    if text.is_empty() {
        return false;
    }
    let part = part::<T>(rt, alloc, sort, text);
    let nothing = Vec::new(alloc);
    let wanted = filled_part(alloc, &part, nothing.as_slice()).expect(rt, text);
    let found = kept.term(alloc).expect(rt, text);
    found.equals(&wanted)
}

/// Whether the bank keeps these terms, between spaces, for the first nonterminal, by size and in order; where the row
/// names none, any.
fn keeps_terms<T: Theory>(
    rt: &impl Abort,
    alloc: Global,
    sort: Sort,
    bank: &Bank<T>,
    text: &str,
) -> bool {
    if text.is_empty() {
        return true;
    }
    let mut words = text.split(' ');
    for size in 0..=bank.upto() {
        for kept in bank.kept(0, size) {
            if !is_term(rt, alloc, sort, kept, words.next().unwrap_or("")) {
                return false;
            }
        }
    }
    words.next().is_none()
}

/// The numbers between spaces as values of the sort.
fn pool_of<T: Theory>(rt: &impl Abort, alloc: Global, sort: Sort, text: &str) -> Values<T> {
    let mut values = Seq::new(alloc);
    for word in text.split(' ') {
        if let Some(value) = value::<T>(sort, word) {
            values.push(value).expect(rt, word);
        }
    }
    values
}

/// Whether the row's bank is as it tells, where the pool has these numbers.
pub(crate) fn is_right<T: Theory>(
    rt: &impl Abort,
    alloc: Global,
    sort: Sort,
    pool: &str,
    row: &str,
) -> bool {
    let (counts, end) = (field(row, 6), field(row, 7));
    let pool = pool_of::<T>(rt, alloc, sort, pool);
    let nons = nonterminals::<T>(rt, alloc, sort, sort, field(row, 1));
    let nonterminals = u32::try_from(nons.len()).unwrap_or(u32::MAX);
    let upto = (number(row, 3), number(row, 4));
    let cap = number(row, 5);
    let built = bank_of(rt, alloc, sort, nons, field(row, 2), &pool, upto, cap);
    let is_right = match &built {
        Ok(bank) => {
            let is_whole = bank.overflow().is_none();
            let found = if is_whole { "whole" } else { "dropped" };
            let are_kept = keeps_terms(rt, alloc, sort, bank, field(row, 8));
            found == end && are_kept && keeps(bank, nonterminals, counts)
        }
        Err(BankEnd::Full(bank, _, next)) => {
            let (word, size) = end.split_once(' ').unwrap_or((end, ""));
            let is_full = word == "full" && next.size == size.parse().unwrap_or(0);
            let is_next = field(row, 9).is_empty() || is_term(rt, alloc, sort, next, field(row, 9));
            let are_kept = keeps_terms(rt, alloc, sort, bank, field(row, 8));
            is_full && is_next && are_kept && keeps(bank, nonterminals, counts)
        }
        Err(BankEnd::Want) => panic!(rt; "memory"),
    };
    drop(built);
    is_right
}

/// Grammars, the argument's values, the sizes up to which a bank is built and grown, and the cap; then how many terms
/// are kept at each size, after which none is; whether the bank is whole, dropped a term, or is full before one of a
/// size; and, where they are named, the terms kept for the first nonterminal, and the next one of a bank that is full.
/// First stand all constants and arguments, by their digits, where one term is enough without points; then sums, as
/// they are built and as they are grown; a term that isn't computable; what derives nothing; and chains, in whatever
/// order they stand.
pub(crate) const INTEGERS: &str = "\
bank of integers|k v|30 50|6|6|99|0 5 1 4 6 16 32|whole
bank of integers|k v|30|9|9|20|0 5 1 4 6 4|full 5
bank of integers|k v||128|128|9|0 1|whole
bank of integers|k|0|3|3|10|0 4 1 4|whole|0 1 7 !6 !1 2 !2 3 !3
bank of integers|1 +1A|0|5|5|9|0 1 0 1 0 1|whole|1 +11 +1+11
bank of integers|1 +1A|0|1|5|9|0 1 0 1 0 1|whole
bank of integers|1 +1A|0|3|5|2|0 1 0 1|full 5|1 +11|+1+11
bank of integers|M +MA|0|3|3|9|0 1|dropped
bank of integers|+M1 +12|0|3|5|0||dropped
bank of integers|+12 +M1|0|3|5|0||full 3
bank of integers|3 4 3 +12 +22|0|3|3|2|0 2|whole
bank of integers|+AA|0|4|4|0||whole
bank of integers|B x;A|0|2|2|9|0 2|whole
bank of integers|B B;C A;v B||1|2|9|0 3|whole
bank of integers|B B;C A;v B||1|2|2|0 2|full 1";

/// The same over vectors of four bits: all constants and arguments, as far as the width goes; and each function of two
/// truth values once, with a bit for each pair of them.
pub(crate) const VECTORS: &str = "\
bank of four bits|k v|3 5|99|99|50|0 3 0 2 4 8|whole
bank of four bits|3 5 ~A &AA|0|13|13|99|0 2 2 1 4 4 1 0 0 0 0 2|whole";

/// The same over vectors of eight bits: an argument and its square, which 2 tells apart and 0 and 1 don't, also where
/// the bank is full at once or when it is grown.
pub(crate) const BYTES: &str = "\
bank of bytes|x *xx|0 1|3|3|10|0 1|whole|x
bank of bytes|x *xx|0 1|3|3|1|0 1|whole
bank of bytes|x *xx|0 1 2|3|3|10|0 1 0 1|whole|x *xx
bank of bytes|x *xx|0 1 2|3|3|1|0 1|full 3|x|*xx
bank of bytes|x *xx|0 1 2|1|1|10|0 1|whole|x
bank of bytes|x *xx|0 1 2|1|3|10|0 1 0 1|whole|x *xx
bank of bytes|x *xx|0 1 2|1|3|1|0 1|full 3|x|*xx";
