// Terms over the variables `x`, `y` and `z`, as texts: a character for each node, which stands before its arguments.
use std::alloc::Global;
use std::process::Abort;
use sy_terms::{Fun, Op, Term, Terms, Theory};

/// The operator of this sign, and how many arguments it has here.
pub(crate) fn operator(sign: u8) -> Option<(Op, usize)> {
    match sign {
        b'=' => Some((Op::Equal, 2)),
        b'D' => Some((Op::Distinct, 2)),
        b'O' => Some((Op::Or, 2)),
        b'L' => Some((Op::Le, 2)),
        b'G' => Some((Op::Ge, 2)),
        b'-' => Some((Op::BvNeg, 1)),
        b'~' => Some((Op::BvNot, 1)),
        b'&' => Some((Op::BvAnd, 2)),
        b'o' => Some((Op::BvOr, 2)),
        b'^' => Some((Op::BvXor, 2)),
        b'a' => Some((Op::BvAdd, 2)),
        b's' => Some((Op::BvSub, 2)),
        b'*' => Some((Op::BvMul, 2)),
        b'/' => Some((Op::BvUdiv, 2)),
        b'r' => Some((Op::BvLshr, 2)),
        b'd' => Some((Op::Div, 2)),
        b'm' => Some((Op::Mod, 2)),
        _ => None,
    }
}

/// Takes so many terms, of which the last is the first argument.
fn arguments<T: Theory>(
    rt: &impl Abort,
    alloc: Global,
    stack: &mut Vec<Term<T>>,
    count: usize,
) -> Terms<T> {
    let mut terms = Terms::new(alloc);
    for _ in 0..count {
        if let Some(term) = stack.pop() {
            terms.push(term).expect(rt, "memory");
        }
    }
    terms
}

/// The node of a sign, whose arguments are the last terms: `f` calls the function to be found, at so many arguments;
/// `B` binds one term, and the others are operators.
fn node<T: Theory>(
    rt: &impl Abort,
    alloc: Global,
    arguments_of_call: usize,
    stack: &mut Vec<Term<T>>,
    sign: u8,
) -> Term<T> {
    match sign {
        b'x'..=b'z' => Term::Var(u32::from(sign - b'x')),
        b'f' => Term::Call(
            Fun::Wanted(0),
            arguments(rt, alloc, stack, arguments_of_call),
        ),
        b'B' => {
            let bound = arguments(rt, alloc, stack, 1);
            let inner = stack.pop().unwrap_or(Term::Var(0));
            Term::Let(bound, Box::new(alloc, inner).expect(rt, "memory"))
        }
        _ => {
            let (operator, count) = operator(sign).unwrap_or((Op::And, 0));
            Term::App(operator, arguments(rt, alloc, stack, count))
        }
    }
}

/// The term of this text, in which calls of the function to be found have so many arguments.
pub(crate) fn term<T: Theory>(
    rt: &impl Abort,
    alloc: Global,
    arguments_of_call: usize,
    text: &str,
) -> Term<T> {
    let mut stack = Vec::new(alloc);
    for sign in text.as_bytes().iter().rev() {
        let term = node(rt, alloc, arguments_of_call, &mut stack, *sign);
        stack.push(term).expect(rt, text);
    }
    stack.pop().expect(rt, text)
}
