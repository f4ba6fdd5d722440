// Parts and grammars as texts, a character for each node, which stands before those that it takes.
use std::alloc::Global;
use std::process::Abort;
use sy_grammar_base::{Non, Part, Parts, Rule};
use sy_terms::{Op, Seq, Sort, Theory, Value};

/// What stands before the first `|`, and what stands after it.
pub fn cut(line: &str) -> (&str, &str) {
    line.split_once('|').unwrap_or((line, ""))
}

/// The number as a part; the argument where the sort has no such number.
fn number<T: Theory>(sort: Sort, number: i128) -> Part<T> {
    match T::of_number(sort, number) {
        Some(number) => Part::Const(Value::Num(number)),
        None => Part::Var(0),
    }
}

/// Takes so many of the last parts, the last one first.
fn last<T: Theory>(
    rt: &impl Abort,
    alloc: Global,
    stack: &mut Vec<Part<T>>,
    count: usize,
) -> Parts<T> {
    let mut parts = Parts::new(alloc);
    for _ in 0..count {
        if let Some(part) = stack.pop() {
            parts.push(part).expect(rt, "memory");
        }
    }
    parts
}

/// The operator of this sign, and how many arguments it takes.
fn operator(sign: u8) -> Option<(Op, usize)> {
    match sign {
        b'!' => Some((Op::Neg, 1)),
        b'+' => Some((Op::Add, 2)),
        b'#' => Some((Op::Add, 3)),
        b'-' => Some((Op::Sub, 2)),
        b'*' => Some((Op::BvMul, 2)),
        b'&' => Some((Op::BvAnd, 2)),
        b'~' => Some((Op::BvNot, 1)),
        b'n' => Some((Op::BvNeg, 1)),
        b'?' => Some((Op::Ite, 3)),
        b'L' => Some((Op::Le, 2)),
        _ => None,
    }
}

/// The part that begins with this sign, where the stack has those after it, the next one last: `A`, `B` and `C` are the
/// nonterminals, `x` and `y` are arguments, `D` calls the first definition, and `E` the fourth at two arguments, `M` is
/// the greatest number of 128 bits, and a digit is itself.
fn begun<T: Theory>(
    rt: &impl Abort,
    alloc: Global,
    sort: Sort,
    sign: u8,
    stack: &mut Vec<Part<T>>,
) -> Part<T> {
    if let Some((op, count)) = operator(sign) {
        return Part::App(op, last(rt, alloc, stack, count));
    }
    match sign {
        b'A' => Part::Non(0),
        b'B' => Part::Non(1),
        b'C' => Part::Non(2),
        b'D' => Part::Call(0, last(rt, alloc, stack, 1)),
        b'E' => Part::Call(3, last(rt, alloc, stack, 2)),
        b'x' => Part::Var(0),
        b'y' => Part::Var(1),
        b'M' => number(sort, i128::MAX),
        digit => number(sort, i128::from(digit.wrapping_sub(b'0'))),
    }
}

/// The part of this text.
pub fn part<T: Theory>(rt: &impl Abort, alloc: Global, sort: Sort, text: &str) -> Part<T> {
    let mut stack = Vec::new(alloc);
    for sign in text.as_bytes().iter().rev() {
        let part = begun(rt, alloc, sort, *sign, &mut stack);
        stack.push(part).expect(rt, text);
    }
    stack.pop().expect(rt, text)
}

/// The rules of this text, between spaces: `k` is the rule for all constants and `v` that for all arguments.
fn rules<T: Theory>(rt: &impl Abort, alloc: Global, sort: Sort, text: &str) -> Seq<Rule<T>> {
    let mut rules = Seq::new(alloc);
    for word in text.split(' ') {
        let rule = match word {
            "k" => Rule::AnyConstant(sort),
            "v" => Rule::AnyVariable(sort),
            _ => Rule::Term(part(rt, alloc, sort, word)),
        };
        rules.push(rule).expect(rt, text);
    }
    rules
}

/// The nonterminals of this text, of which the first has one sort and the others have another, with a semicolon between
/// the rules of two.
pub fn nonterminals<T: Theory>(
    rt: &impl Abort,
    alloc: Global,
    sort: Sort,
    others: Sort,
    text: &str,
) -> Seq<Non<T>> {
    let mut nons = Seq::new(alloc);
    let mut sort = sort;
    for text in text.split(';') {
        let rules = rules::<T>(rt, alloc, sort, text);
        nons.push(Non { sort, rules }).expect(rt, text);
        sort = others;
    }
    nons
}
