// Terms that are made from a list of their nodes.
use std::alloc::Global;
use sy_terms::{Op, Sort, Term, Terms, Theory, Value, Want};

/// A node of a term: a variable, a number, or an operator over the nodes that stand at these places before it.
#[derive(Clone, Copy)]
pub(crate) enum Node {
    Var(u32),
    Number(i128),
    Over(Op, [usize; 3]),
}

/// The place of no node.
pub(crate) const NONE: usize = usize::MAX;

/// The number as a value of the sort; the first variable where the sort has no such number.
fn constant<T: Theory>(sort: Sort, number: i128) -> Term<T> {
    match T::of_number(sort, number) {
        Some(number) => Term::Const(Value::Num(number)),
        None => Term::Var(0),
    }
}

/// Appends the term whose top node stands at the place, if one does.
pub(crate) fn add_term<T: Theory>(
    alloc: Global,
    sort: Sort,
    nodes: &[Node],
    place: usize,
    terms: &mut Terms<T>,
) -> Result<(), Want> {
    match nodes.get(place) {
        Some(Node::Var(position)) => terms.push(Term::Var(*position)),
        Some(Node::Number(number)) => terms.push(constant(sort, *number)),
        Some(Node::Over(operator, places)) => {
            let mut arguments = Terms::new(alloc);
            for below in places {
                if *below < place {
                    add_term(alloc, sort, nodes, *below, &mut arguments)?;
                }
            }
            terms.push(Term::App(*operator, arguments))
        }
        None => Ok(()),
    }
}
