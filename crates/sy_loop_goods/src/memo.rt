// What constraints told at assignments.
ghost use Rattle.std.specs.Prelude.{◌≡◌, ◌⊎◌, IfSome, OnOk};
ghost use Rattle.sy_terms.specs.Denoted.{val_of, vals_of};
ghost use Rattle.sy_loop_goods.specs.Tellings.{HasTelling, Telling};

use crate::page::Page;
use std::alloc::Global;
use sy_points::Stored;
use sy_terms::{Theory, Value, Want, copied_values};

/// How many truths a memo may have.
const MOST: usize = 1 << 19;

/// What constraints told at stored assignments: whether they are true, by the value of the function to be found at the
/// tuple on which each rests. It may forget, and what it says was told to it.
#[derive(Drop)]
pub struct Memo<T: Theory> {
    /// A page for each constraint at each assignment, one assignment after the other.
    pages: Vec<Page<T>>,
    /// How many constraints there are.
    constraints: usize,
    /// How many assignments have pages.
    places: usize,
    /// How many truths more it may have.
    room: usize,
}

impl<T: Theory> Memo<T> {
    /// The memo of so many constraints, of which nothing was told. It takes no memory.
    pub fn new(alloc: Global, constraints: usize) -> Memo<T>
        ensures { (telling : Telling) → HasTelling T.denotes result telling → ⊥ }
    {
        Memo {
            pages: Vec::new(alloc),
            constraints,
            places: 0,
            room: MOST,
        }
    }

    /// Opens pages for the stored assignments that have none. `Want` comes where memory runs out, and nowhere else;
    /// nothing is promised of the memo then.
    pub fn widen(&mut self, alloc: Global, stored: &Stored<T>) -> Result<(), Want>
        ensures { OnOk result ((telling : Telling) → HasTelling T.denotes self.new telling →
            HasTelling T.denotes self.old telling) }
    {
        for place in self.places..stored.len() {
            let Some((assignment, _)) = stored.get(place) else {
                unreachable!();
            };
            self.open(alloc, assignment.as_slice())?;
        }
        self.places = stored.len();
        Ok(())
    }

    /// Whether the constraint of this number was true at the stored assignment of this place, where the function has
    /// this value; `None` where that isn't found.
    pub fn truth(
        &self,
        constraint: usize,
        place: usize,
        assignment: &[Value<T::Num>],
        value: &Value<T::Num>,
    ) -> Option<bool>
        ensures { IfSome result (λ truth. HasTelling T.denotes self.now (record {
          constraint = constraint;
          values = vals_of T.denotes assignment.now;
          value = val_of T.denotes value.now;
          truth = truth;
        })) }
    {
        let page = self.pages.get(self.page_of(constraint, place))?;
        page.truth(constraint, assignment, value)
    }

    /// Adds whether the constraint of this number is true at the stored assignment of this place, where the function
    /// has this value, unless there is no room or no page. `Want` comes where memory runs out, and nowhere else;
    /// nothing is promised of the memo then.
    pub fn add(
        &mut self,
        constraint: usize,
        place: usize,
        assignment: &[Value<T::Num>],
        value: Value<T::Num>,
        truth: bool,
    ) -> Result<(), Want>
        ensures { OnOk result ((telling : Telling) → HasTelling T.denotes self.new telling →
            HasTelling T.denotes self.old telling ⊎ (telling ≡ record {
              constraint = constraint;
              values = vals_of T.denotes assignment.now;
              value = val_of T.denotes value;
              truth = truth;
            })) }
    {
        let page = self.page_of(constraint, place);
        if self.room == 0 || page >= self.pages.len() {
            return Ok(());
        }
        self.pages[page].add(constraint, assignment, value, truth)?;
        self.room -= 1;
        Ok(())
    }

    /// Opens a page for each constraint at one assignment more.
    fn open(&mut self, alloc: Global, assignment: &[Value<T::Num>]) -> Result<(), Want>
        ensures { OnOk result ((telling : Telling) → HasTelling T.denotes self.new telling →
            HasTelling T.denotes self.old telling) }
    {
        for constraint in 0..self.constraints {
            let assignment = copied_values::<T>(alloc, assignment)?;
            self.pages.push(Page::new(alloc, constraint, assignment))?;
        }
        Ok(())
    }

    /// The number of the page of the constraint at the assignment of this place, as a guess.
    fn page_of(&self, constraint: usize, place: usize) -> usize {
        place
            .saturating_mul(self.constraints)
            .saturating_add(constraint)
    }
}
