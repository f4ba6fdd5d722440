// The order of decisions: variables that recent conflicts used come first, and take the value that
// they had last. No contract speaks of it, since any order is right.
ghost use Rattle.std.specs.Prelude.{◌<◌, ◌+◌, ◌^◌};

use std::alloc::{AllocError, Global};
use sy_seq::Want;

/// In which order variables that no conflict has used are decided.
#[derive(Clone, Copy, Debug, PartialEq, Eq)]
pub enum Start {
    FirstVariable,
    LastVariable,
}

/// How a search decides. Any plan is right.
#[derive(Clone, Copy, Debug, PartialEq, Eq)]
pub struct Plan {
    pub start: Start,
    /// Each conflict counts for more than the one before it by one part in so many; 0 is as 1.
    pub aging: u64,
}

/// From the first variable on, where older conflicts are forgotten slowly.
pub const USUAL_PLAN: Plan = Plan {
    start: Start::FirstVariable,
    aging: 17,
};

/// A heap of variables by activity, with the place of each that is in it.
#[derive(Drop)]
pub struct Order {
    activity: Vec<u64>,
    phases: Vec<bool>,
    heap: Vec<u32>,
    places: Vec<usize>,
    size: usize,
    step: u64,
    aging: u64,
}

/// What a variable that is not in the heap has as its place.
const ABSENT: usize = 0xffff_ffff_ffff_ffff;

/// Above this all activities are scaled down.
const LIMIT: u64 = 0x0100_0000_0000_0000;

/// So many times 0.
fn zeros(alloc: Global, count: u32) -> Result<Vec<u64>, Want> {
    let mut zeros = Vec::new(alloc);
    for _ in 0..count {
        zeros.push(0)?;
    }
    Ok(zeros)
}

/// So many times false.
fn all_false(alloc: Global, count: u32) -> Result<Vec<bool>, Want> {
    let mut values = Vec::new(alloc);
    for _ in 0..count {
        values.push(false)?;
    }
    Ok(values)
}

impl Start {
    /// The variable at a place, of so many; also the place of a variable.
    fn at(self, place: u32, count: u32) -> u32
        requires { place < count }
    {
        match self {
            Start::FirstVariable => place,
            Start::LastVariable => count - 1 - place,
        }
    }

    /// So many variables in order.
    fn numbers(self, alloc: Global, count: u32) -> Result<Vec<u32>, Want> {
        let mut numbers = Vec::new(alloc);
        for place in 0..count {
            numbers.push(self.at(place, count))?;
        }
        Ok(numbers)
    }

    /// The places of so many variables.
    fn places(self, alloc: Global, count: u32) -> Result<Vec<usize>, Want> {
        let mut places = Vec::new(alloc);
        for number in 0..count {
            places.push(self.at(number, count) as usize)?;
        }
        Ok(places)
    }
}

impl Order {
    /// All variables in the order that the plan begins with, with the value false.
    pub fn new(alloc: Global, vars: u32, plan: Plan) -> Result<Order, Want> {
        Ok(Order {
            activity: zeros(alloc, vars)?,
            phases: all_false(alloc, vars)?,
            heap: plan.start.numbers(alloc, vars)?,
            places: plan.start.places(alloc, vars)?,
            size: vars as usize,
            step: 0x10000,
            aging: plan.aging,
        })
    }

    /// The variable at a place of the heap.
    fn var_at(&self, place: usize) -> u32 {
        match self.heap.get(place) {
            Some(var) => *var,
            None => 0,
        }
    }

    fn activity_at(&self, place: usize) -> u64 {
        match self.activity.get(self.var_at(place) as usize) {
            Some(activity) => *activity,
            None => 0,
        }
    }

    /// Puts a variable at a place.
    fn put(&mut self, place: usize, var: u32) {
        if place < self.heap.len() {
            self.heap[place] = var;
        }
        let index = var as usize;
        if index < self.places.len() {
            self.places[index] = place;
        }
    }

    /// Moves the variable at a place up to where it belongs.
    fn rise(&mut self, from: usize) {
        let var = self.var_at(from);
        let activity = self.activity_at(from);
        let mut place = from;
        while place > 0 {
            let parent = (place - 1) / 2;
            if self.activity_at(parent) >= activity {
                break;
            }
            self.put(place, self.var_at(parent));
            place = parent;
        }
        self.put(place, var);
    }

    /// The more active of the two below a place.
    fn larger_child(&self, place: usize) -> usize
        requires { place + 1 < 2 ^ 63 }
        ensures { place < result }
    {
        let left = 2 * place + 1;
        if left + 1 < self.size && self.activity_at(left + 1) > self.activity_at(left) {
            left + 1
        } else {
            left
        }
    }

    /// Moves the first variable down to where it belongs.
    fn sink(&mut self) {
        let var = self.var_at(0);
        let activity = self.activity_at(0);
        let half = self.size / 2;
        let mut place = 0;
        while place < half {
            let child = self.larger_child(place);
            if activity >= self.activity_at(child) {
                break;
            }
            self.put(place, self.var_at(child));
            place = child;
        }
        self.put(place, var);
    }

    /// Takes the most active variable out.
    pub fn pop(&mut self) -> Option<u32> {
        if self.size == 0 {
            return None;
        }
        let var = self.var_at(0);
        self.size -= 1;
        let last = self.var_at(self.size);
        self.put(0, last);
        let index = var as usize;
        if index < self.places.len() {
            self.places[index] = ABSENT;
        }
        self.sink();
        Some(var)
    }

    /// Puts the variable back in, with the value that it had.
    pub fn restore(&mut self, var: u32, phase: bool) {
        let index = var as usize;
        if index < self.phases.len() {
            self.phases[index] = phase;
        }
        if index >= self.places.len()
            || self.places[index] != ABSENT
            || self.size >= self.heap.len()
        {
            return;
        }
        let place = self.size;
        self.size += 1;
        self.put(place, var);
        self.rise(place);
    }

    /// The value that the variable had last.
    pub fn phase(&self, var: u32) -> bool {
        match self.phases.get(var as usize) {
            Some(phase) => *phase,
            None => false,
        }
    }

    /// Scales all activities down.
    fn scale(&mut self) {
        for activity in self.activity.iter_mut() {
            *activity = *activity / 0x0100_0000_0000;
        }
        self.step = 0x10000;
    }

    /// The variable was used in a conflict.
    pub fn bump(&mut self, var: u32) {
        let index = var as usize;
        if index >= self.activity.len() || index >= self.places.len() {
            return;
        }
        let activity = self.activity[index];
        self.activity[index] = activity.saturating_add(self.step);
        let place = self.places[index];
        if place < self.size {
            self.rise(place);
        }
    }

    /// A conflict has passed: later ones count for more.
    pub fn age(&mut self) {
        self.step = self.step.saturating_add(self.step / self.aging.max(1));
        if self.step > LIMIT {
            self.scale();
        }
    }
}
