// Values and terms as texts.
ghost use Rattle.std.specs.Prelude.{◌≡◌, ◌∷◌, []};

use crate::operators::operator;
use std::alloc::Global;
use std::process::Abort;
use sy_terms::{Fun, Seq, Sort, Term, Terms, Theory, Value};

/// The item alone.
pub fn one<X: Drop>(rt: &impl Abort, alloc: Global, item: X) -> Seq<X>
    ensures { result ≡ item ∷ [] }
{
    let mut items = Seq::new(alloc);
    items.push(item).expect(rt, "memory");
    items
}

/// An integer, or a vector's width and number, as `8:200`.
fn number<T: Theory>(text: &str) -> Option<T::Num> {
    let (width, number) = text.split_once(':').unwrap_or(("", text));
    let sort = match width.parse() {
        Ok(width) => Sort::Bits(width),
        Err(_) => Sort::Int,
    };
    match number.parse() {
        Ok(number) => T::of_number(sort, number),
        Err(_) => None,
    }
}

/// A truth value, an integer, or a vector's width and number.
pub fn value<T: Theory>(text: &str) -> Option<Value<T::Num>> {
    match text {
        "true" => Some(Value::Truth(true)),
        "false" => Some(Value::Truth(false)),
        _ => match number::<T>(text) {
            Some(number) => Some(Value::Num(number)),
            None => None,
        },
    }
}

/// Takes so many of the last terms, the last one first.
fn last<T: Theory>(
    rt: &impl Abort,
    alloc: Global,
    stack: &mut Vec<Term<T>>,
    count: usize,
) -> Terms<T> {
    let mut terms = Terms::new(alloc);
    for _ in 0..count {
        if let Some(term) = stack.pop() {
            terms.push(term).expect(rt, "memory");
        }
    }
    terms
}

/// The node of this word, where the stack has the terms after it, the next one last: a value; a variable, `a` to `e`; a
/// call of the definition, `D`, or of the function to be found, `F`; a binding of terms for the one after them, `let`;
/// or an operator. How many terms it takes stands after a slash; all, where nothing does.
pub fn node<T: Theory>(
    rt: &impl Abort,
    alloc: Global,
    stack: &mut Vec<Term<T>>,
    word: &str,
) -> Term<T> {
    if let Some(value) = value::<T>(word) {
        return Term::Const(value);
    }
    let (name, count) = match word.split_once('/') {
        Some((name, count)) => (name, count.parse().unwrap_or(0)),
        None => (word, stack.len()),
    };
    if let Some(position) = "abcde".find(name) {
        return Term::Var(u32::try_from(position).unwrap_or(0));
    }
    let taken = last(rt, alloc, stack, count);
    match name {
        "D" => Term::Call(Fun::Defined(0), taken),
        "F" => Term::Call(Fun::Wanted(0), taken),
        "let" => {
            let inner = stack.pop().expect(rt, word);
            Term::Let(taken, Box::new(alloc, inner).expect(rt, word))
        }
        _ => Term::App(operator(name).expect(rt, word), taken),
    }
}

/// The term of this text, in which each node stands before what it takes.
pub fn term<T: Theory>(rt: &impl Abort, alloc: Global, text: &str) -> Term<T> {
    let mut stack = Vec::new(alloc);
    for word in text.rsplit(' ') {
        let node = node(rt, alloc, &mut stack, word);
        stack.push(node).expect(rt, "memory");
    }
    stack.pop().expect(rt, text)
}
