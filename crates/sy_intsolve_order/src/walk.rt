// A walk through the live nodes of a query under a path, which lists the open tests.
use crate::guide::Guide;
use crate::marks::Mark;
use crate::truths::Sight;
use std::alloc::Global;
use sy_meaning_integers::IntTheory;
use sy_seq::Want;
use sy_terms::{Op, Term, Terms, Value};

/// What comes from this place on.
fn from(sights: &[Sight], base: usize) -> &[Sight] {
    if base <= sights.len() {
        &sights[base..]
    } else {
        &[]
    }
}

/// The node after those of the term whose node this is.
fn after(marks: &[Mark], node: usize) -> usize {
    match marks.get(node) {
        Some(mark) => mark.end,
        None => node,
    }
}

impl Guide {
    /// What is told of a term, whose node comes next; the open tests that it asks for are listed where it isn't known.
    #[cycle(walk)]
    pub(crate) fn walk(&mut self, alloc: Global, term: &Term<IntTheory>) -> Result<Sight, Want> {
        let node = self.next;
        let listed = self.asking.listed.len();
        self.next = node.saturating_add(1);
        let sight = match term {
            Term::Const(Value::Truth(truth)) => Sight::Settled(*truth),
            Term::Const(Value::Num(number)) => {
                Sight::Linear(self.asking.tables.constant(alloc, *number)?)
            }
            Term::Var(number) => self.asking.named(self.names.as_slice(), *number, node)?,
            Term::App(Op::Ite, arguments) => self.walk_choice(alloc, arguments)?,
            Term::App(operator, arguments) => {
                let base = self.sights.len();
                self.walk_row(alloc, arguments)?;
                let sights = from(self.sights.as_slice(), base);
                let sight = self.asking.applied(alloc, node, operator, sights)?;
                self.sights.truncate(base);
                sight
            }
            Term::Call(_, _) => {
                self.next = after(self.marks.as_slice(), node);
                Sight::Open
            }
            Term::Let(bound, inner) => {
                let outer = self.names.len();
                self.walk_bound(alloc, bound)?;
                let sight = self.walk(alloc, inner)?;
                self.names.truncate(outer);
                sight
            }
        };
        Ok(self.asking.settled(sight, listed))
    }

    /// Appends what is told of the terms.
    #[cycle(walk)]
    fn walk_row(&mut self, alloc: Global, terms: &Terms<IntTheory>) -> Result<(), Want> {
        for term in terms.as_slice() {
            let sight = self.walk(alloc, term)?;
            self.sights.push(sight)?;
        }
        Ok(())
    }

    /// Appends what is told of the terms to the names.
    #[cycle(walk)]
    fn walk_bound(&mut self, alloc: Global, terms: &Terms<IntTheory>) -> Result<(), Want> {
        for term in terms.as_slice() {
            let sight = self.walk(alloc, term)?;
            self.names.push(sight)?;
        }
        Ok(())
    }

    /// What is told of the branch that a known condition chooses, which alone is walked through.
    #[cycle(walk)]
    fn walk_choice(&mut self, alloc: Global, terms: &Terms<IntTheory>) -> Result<Sight, Want> {
        let mut condition = None;
        let mut chosen = Sight::Open;
        let mut place = 0u32;
        for term in terms.as_slice() {
            if place == 0 {
                condition = self.walk(alloc, term)?.truth();
            } else if condition == Some(place == 1) {
                chosen = self.walk(alloc, term)?;
            } else {
                self.next = after(self.marks.as_slice(), self.next);
            }
            place = place.saturating_add(1);
        }
        Ok(chosen)
    }
}
