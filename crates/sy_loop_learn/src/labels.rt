// Labels of points, and conditions on them.
use crate::row::{POINTS, Row};
use std::alloc::Global;
use std::collections::HashSet;
use std::mem;
use sy_seq::Want;

/// How many conditions there may be.
const CONDITIONS: usize = 20_000;

/// Whether a point is in what is learned.
#[derive(Clone, Copy, PartialEq, Eq, PartialOrd, Ord, Hash)]
pub struct Label {
    /// The number of the point.
    pub point: usize,
    /// Whether it is in.
    pub inside: bool,
}

/// What labels say of a condition.
enum State {
    /// One of its labels is given.
    Met,
    /// All its labels but this one are excluded.
    Forced(Label),
    /// Several may hold.
    Open,
    /// All are excluded.
    Failed,
}

/// Conditions on labels, and the labels that follow from them one at a time.
#[derive(Drop)]
pub(crate) struct Labels {
    alloc: Global,
    /// Points that every solution has.
    pub(crate) inside: Row,
    /// Points that no solution has.
    pub(crate) outside: Row,
    /// Of the labels of each, one holds.
    pub(crate) conditions: Vec<Vec<Label>>,
    /// The conditions that the labels don't decide.
    open: Vec<usize>,
    seen: HashSet<Vec<Label>>,
    pub(crate) contradictory: bool,
}

/// The labels in order, each once.
fn ordered(alloc: Global, labels: &[Label]) -> Result<Vec<Label>, Want> {
    let mut condition = Vec::new(alloc);
    for label in labels {
        if !condition.contains(label) {
            condition.push(*label)?;
        }
    }
    condition.sort()?;
    Ok(condition)
}

/// Whether some point is in and out by them, so that one of them holds in any case.
fn is_certain(labels: &[Label]) -> bool {
    let mut last: Option<usize> = None;
    for label in labels {
        if last == Some(label.point) {
            return true;
        }
        last = Some(label.point);
    }
    false
}

impl Labels {
    /// No conditions.
    pub(crate) fn new(alloc: Global) -> Labels {
        Labels {
            alloc,
            inside: Row::empty(),
            outside: Row::empty(),
            conditions: Vec::new(alloc),
            open: Vec::new(alloc),
            seen: HashSet::new(alloc),
            contradictory: false,
        }
    }

    /// The label of a point, if it has one.
    pub(crate) fn label(&self, point: usize) -> Option<bool> {
        if self.inside.has(point) {
            return Some(true);
        }
        if self.outside.has(point) {
            Some(false)
        } else {
            None
        }
    }

    /// Gives a point its label.
    fn set(&mut self, label: Label) {
        if label.inside {
            self.inside.insert(label.point);
        } else {
            self.outside.insert(label.point);
        }
    }

    /// What the labels say of these.
    fn state(&self, condition: &[Label]) -> State {
        let mut open: Option<Label> = None;
        let mut several = false;
        for label in condition {
            match self.label(label.point) {
                Some(inside) => {
                    if inside == label.inside {
                        return State::Met;
                    }
                }
                None => {
                    several = open.is_some();
                    open = Some(*label);
                }
            }
        }
        match open {
            None => State::Failed,
            Some(_) if several => State::Open,
            Some(label) => State::Forced(label),
        }
    }

    /// Takes what the condition of this number forces. Whether a label was given; it stays open if need be.
    fn settle(&mut self, number: usize) -> Result<bool, Want> {
        let Some(condition) = self.conditions.get(number) else {
            return Ok(false);
        };
        match self.state(condition.as_slice()) {
            State::Met => Ok(false),
            State::Forced(label) => {
                self.set(label);
                Ok(true)
            }
            State::Open => {
                self.open.push(number)?;
                Ok(false)
            }
            State::Failed => {
                self.contradictory = true;
                Ok(false)
            }
        }
    }

    /// Takes what the open conditions force, each once. Whether a label was given.
    fn settle_all(&mut self) -> Result<bool, Want> {
        let numbers = mem::replace(&mut self.open, Vec::new(self.alloc));
        let mut changed = false;
        for number in &numbers {
            if self.settle(*number)? {
                changed = true;
            }
        }
        Ok(changed)
    }

    /// Takes all that the conditions force.
    fn propagate(&mut self) -> Result<(), Want> {
        for _pass in 0..POINTS {
            if !self.settle_all()? {
                return Ok(());
            }
        }
        Ok(())
    }

    /// One condition more: of its labels one holds. Whether it is new.
    pub(crate) fn add(&mut self, labels: &[Label]) -> Result<bool, Want> {
        let number = self.conditions.len();
        let condition = ordered(self.alloc, labels)?;
        if number >= CONDITIONS || is_certain(condition.as_slice()) {
            return Ok(false);
        }
        if !self.seen.insert(condition.clone()?)? {
            return Ok(false);
        }
        self.conditions.push(condition)?;
        if self.settle(number)? {
            self.propagate()?;
        }
        Ok(true)
    }

    /// A condition that isn't met where these points are in and no others.
    pub(crate) fn unmet(&self, inside: &Row) -> Option<&Vec<Label>> {
        for number in &self.open {
            if let Some(condition) = self.conditions.get(*number) {
                if !is_met(condition.as_slice(), inside) {
                    return Some(condition);
                }
            }
        }
        None
    }
}

/// Whether one of the labels holds where these points are in and no others.
fn is_met(condition: &[Label], inside: &Row) -> bool {
    for label in condition {
        if inside.has(label.point) == label.inside {
            return true;
        }
    }
    false
}
