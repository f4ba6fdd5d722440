// What is known of the nodes of a query apart from any path.
use sy_meaning_integers::IntTheory;
use sy_seq::Want;
use sy_terms::{Op, Term, Terms};

/// What is known of a node.
#[derive(Clone, Copy)]
pub(crate) struct Mark {
    /// How many implications have the node in a premise.
    pub(crate) phase: u32,
    /// The number of the outermost argument of an implication that contains the node, else 0.
    pub(crate) group: usize,
    /// Where the node comes in a walk in preorder that visits the arguments of implications from last to first.
    pub(crate) rank: u64,
    /// The number of the first node after it that isn't below it.
    pub(crate) end: usize,
}

impl Mark {
    /// What is known of the root of a query.
    pub(crate) fn root() -> Mark {
        Mark {
            phase: 0,
            group: 0,
            rank: 0,
            end: 0,
        }
    }

    /// The same so many nodes later.
    fn later(self, nodes: u64) -> Mark {
        Mark {
            rank: self.rank.saturating_add(nodes),
            ..self
        }
    }

    /// The same in a premise.
    fn in_premise(self) -> Mark {
        Mark {
            phase: self.phase.saturating_add(1),
            ..self
        }
    }

    /// The same in an argument of an implication whose number is this.
    fn in_group(self, number: usize) -> Mark {
        let group = if self.group == 0 { number } else { self.group };
        Mark { group, ..self }
    }
}

/// The number of nodes of a term.
fn count(term: &Term<IntTheory>) -> u64 {
    term.size(1 << 32)
}

/// Appends the marks of the term's nodes, in preorder; the first is that of its root.
#[cycle(mark)]
pub(crate) fn mark_all(
    marks: &mut Vec<Mark>,
    term: &Term<IntTheory>,
    here: Mark,
) -> Result<(), Want> {
    let at = marks.len();
    marks.push(here)?;
    match term {
        Term::Const(_) | Term::Var(_) => {}
        Term::App(Op::Implies, arguments) => mark_implication(marks, arguments, here)?,
        Term::App(_, arguments) | Term::Call(_, arguments) => mark_row(marks, arguments, here)?,
        Term::Let(bound, inner) => {
            mark_row(marks, bound, here)?;
            let passed = marks.len().saturating_sub(at);
            mark_all(marks, inner, here.later(passed as u64))?;
        }
    }
    let end = marks.len();
    if let Some(own) = marks.get_mut(at) {
        own.end = end;
    }
    Ok(())
}

/// Appends the marks of the nodes of the terms, by that of the node above them.
#[cycle(mark)]
fn mark_row(marks: &mut Vec<Mark>, terms: &Terms<IntTheory>, above: Mark) -> Result<(), Want> {
    let mut passed = 1u64;
    for term in terms.as_slice() {
        mark_all(marks, term, above.later(passed))?;
        passed = passed.saturating_add(count(term));
    }
    Ok(())
}

/// Appends the marks of the nodes of the arguments of an implication, by its own.
#[cycle(mark)]
fn mark_implication(
    marks: &mut Vec<Mark>,
    terms: &Terms<IntTheory>,
    above: Mark,
) -> Result<(), Want> {
    let mut after = 1u64;
    for term in terms.as_slice() {
        after = after.saturating_add(count(term));
    }
    let mut left = terms.len();
    for term in terms.as_slice() {
        after = after.saturating_sub(count(term));
        left = left.saturating_sub(1);
        let here = above.later(after).in_group(marks.len());
        let here = if left > 0 { here.in_premise() } else { here };
        mark_all(marks, term, here)?;
    }
    Ok(())
}
