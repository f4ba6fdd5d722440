// How far a scan has come.
ghost use Rattle.std.specs.Prelude.{IfOk, IfSome};
ghost use Rattle.sy_loop_scan.specs.Guesses.{IsGuess};

use crate::guess::{Guess, Pool, Shape, is_within};
use crate::operation::{Operation, Way, scanned};
use crate::point::{Point, insert};
use crate::seconds::{Seconds, is_wanted, may_lead};
use std::alloc::Global;
use sy_terms::Want;

/// Where a scan stands, and what it has found but not named yet.
#[derive(Drop)]
pub(crate) struct Progress {
    alloc: Global,
    /// The shapes that are scanned, in this order.
    order: Vec<usize>,
    /// How many of them are done.
    done: usize,
    /// The first part that comes next.
    first: usize,
    /// Second parts for the shape at hand.
    seconds: Seconds,
    /// Second parts that serve the first part before, the last ones first.
    found: Vec<usize>,
    points: Vec<Point>,
    /// What is left of the work.
    work: u64,
}

impl Progress {
    /// The beginning, with so much work to do.
    pub(crate) fn new(alloc: Global, shapes: &[Shape], work: u64) -> Result<Progress, Want> {
        Ok(Progress {
            alloc,
            order: scanned(alloc, shapes)?,
            done: 0,
            first: 0,
            seconds: Seconds::none(alloc),
            found: Vec::new(alloc),
            points: Vec::new(alloc),
            work,
        })
    }

    /// One point more. The first part before is gone through again, since of second parts that were alike one was
    /// named.
    pub(crate) fn add_point(&mut self, wanted: i128, columns: &[Vec<i128>]) -> Result<(), Want> {
        let point = Point::new(self.alloc, wanted, columns)?;
        insert(&mut self.points, point)?;
        self.found.clear();
        self.first = self.first.saturating_sub(1);
        Ok(())
    }

    /// The next combination that has the wanted values, if there is one before the work is done.
    pub(crate) fn next_guess(
        &mut self,
        shapes: &[Shape],
        pools: &[Pool],
        bound: u32,
    ) -> Result<Option<Guess>, Want>
        ensures { IfOk result (λ found. IfSome found (IsGuess shapes.now pools.now bound)) }
    {
        for _ in 0..self.work {
            let Some(place) = self.place() else {
                return Ok(None);
            };
            match Operation::at(shapes, pools, place) {
                None => self.end_shape(),
                Some(operation) => {
                    if let Some(guess) = self.step(&operation, place)? {
                        if is_within(shapes, pools, bound, &guess) {
                            return Ok(Some(guess));
                        }
                    }
                }
            }
        }
        Ok(None)
    }

    /// The place of the shape at hand; `None` where all are done, nothing is wanted, or the work is done.
    fn place(&self) -> Option<usize> {
        if self.work == 0 || self.points.is_empty() {
            return None;
        }
        let place = self.order.get(self.done)?;
        Some(*place)
    }

    /// Goes on to the next shape.
    fn end_shape(&mut self) {
        self.done = self.done.saturating_add(1);
        self.first = 0;
        self.seconds.points = 0;
    }

    fn charge(&mut self, units: u64) {
        self.work = self.work.saturating_sub(units);
    }

    /// Names a combination that was found, or goes on to the next first part.
    fn step(&mut self, operation: &Operation, place: usize) -> Result<Option<Guess>, Want> {
        let Some(second) = self.found.pop() else {
            self.advance(operation)?;
            return Ok(None);
        };
        let first = self.first.saturating_sub(1);
        if !is_wanted(self.points.as_slice(), operation, first, second) {
            return Ok(None);
        }
        let guess = combined(self.alloc, operation, place, first, second)?;
        Ok(Some(guess))
    }

    /// Finds what serves the next first part.
    fn advance(&mut self, operation: &Operation) -> Result<(), Want> {
        if self.first >= operation.firsts {
            self.end_shape();
            return Ok(());
        }
        self.prepare(operation)?;
        let first = self.first;
        self.first = first.saturating_add(1);
        let points = self.points.as_slice();
        match operation.way {
            Way::Single => self.found.push(first)?,
            Way::LookedUp => {
                if let Some(second) = self.seconds.look_up(points, operation, first) {
                    self.found.push(second)?;
                }
            }
            Way::Judged | Way::Divided | Way::Multiplied => {
                if !may_lead(points, operation, first) {
                    self.charge(1);
                    return Ok(());
                }
                self.seconds
                    .judge(points, operation, first, &mut self.found)?;
            }
        }
        let judged = self.seconds.count() as u64;
        self.charge(operation.cost().saturating_mul(judged));
        Ok(())
    }

    /// Makes the second parts ready, unless they are.
    fn prepare(&mut self, operation: &Operation) -> Result<(), Want> {
        if self.seconds.points == self.points.len() {
            return Ok(());
        }
        self.seconds = Seconds::of(self.alloc, self.points.as_slice(), operation)?;
        self.charge(operation.seconds as u64);
        Ok(())
    }
}

/// The combination of these parts.
fn combined(
    alloc: Global,
    operation: &Operation,
    shape: usize,
    first: usize,
    second: usize,
) -> Result<Guess, Want> {
    let mut parts = Vec::with_capacity(alloc, 2)?;
    parts.push(first)?;
    match operation.way {
        Way::Single => {}
        _ => parts.push(second)?,
    }
    Ok(Guess { shape, parts })
}
