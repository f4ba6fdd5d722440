// What one constraint told at one assignment.
ghost use Rattle.std.specs.Prelude.{◌≡◌, [], IsTrue, Contains, IfSome, OnOk};
ghost use Rattle.sy_terms.specs.Denoted.{val_of, vals_of};
ghost use Rattle.sy_loop_goods.specs.Tellings.{GainsTelling, tellings_of};

use std::alloc::Global;
use std::collections::HashMap;
use sy_terms::{Theory, Value, Values, Want, same_value, same_values};

/// What the constraint of this number told at an assignment: whether it is true, by values of the function to be found.
#[derive(Drop)]
pub(crate) struct Page<T: Theory> {
    constraint: usize,
    assignment: Values<T>,
    /// The place of a value among the truths, as a guess.
    places: HashMap<Value<T::Num>, usize>,
    truths: Vec<(Value<T::Num>, bool)>,
}

impl<T: Theory> Page<T> {
    /// The page of the constraint at the assignment, on which nothing stands.
    pub(crate) fn new(alloc: Global, constraint: usize, assignment: Values<T>) -> Page<T>
        ensures { result.truths.items ≡ [] }
    {
        Page {
            constraint,
            assignment,
            places: HashMap::new(alloc),
            truths: Vec::new(alloc),
        }
    }

    /// Whether the constraint was true there, where the function has this value; `None` where that isn't found.
    pub(crate) fn truth(
        &self,
        constraint: usize,
        assignment: &[Value<T::Num>],
        value: &Value<T::Num>,
    ) -> Option<bool>
        ensures { IfSome result (λ truth. Contains (tellings_of T.denotes self.now) (record {
          constraint = constraint;
          values = vals_of T.denotes assignment.now;
          value = val_of T.denotes value.now;
          truth = truth;
        })) }
    {
        if !self.is_of(constraint, assignment) {
            return None;
        }
        let place = *self.places.get(value)?;
        let (known, truth) = self.truths.get(place)?;
        if same_value::<T>(known, value) {
            Some(*truth)
        } else {
            None
        }
    }

    /// Adds whether the constraint is true there, where the function has this value, if it is their page.
    pub(crate) fn add(
        &mut self,
        constraint: usize,
        assignment: &[Value<T::Num>],
        value: Value<T::Num>,
        truth: bool,
    ) -> Result<(), Want>
        ensures { OnOk result (GainsTelling (tellings_of T.denotes self.old)
            (record {
              constraint = constraint;
              values = vals_of T.denotes assignment.now;
              value = val_of T.denotes value;
              truth = truth;
            }) (tellings_of T.denotes self.new)) }
    {
        if !self.is_of(constraint, assignment) {
            return Ok(());
        }
        self.places.insert(value, self.truths.len())?;
        self.truths.push((value, truth))?;
        Ok(())
    }

    /// Whether it is the page of the constraint of this number at the assignment.
    fn is_of(&self, constraint: usize, assignment: &[Value<T::Num>]) -> bool
        ensures { IsTrue result → (self.now.constraint ≡ constraint) ×
            (vals_of T.denotes self.now.assignment ≡ vals_of T.denotes assignment.now) }
    {
        self.constraint == constraint && same_values::<T>(self.assignment.as_slice(), assignment)
    }
}
