// A scan over combinations, up to stated work.
ghost use Rattle.std.specs.Prelude.{◌≡◌, IfOk, IfSome};
ghost use Rattle.sy_loop_scan.specs.Guesses.{IsGuess};

use crate::guess::{Guess, Pool, Shape};
use crate::progress::Progress;
use std::alloc::Global;
use sy_terms::Want;

/// A scan of the combinations of some shapes over some pools, with the values that are wanted at points.
#[derive(Drop)]
pub struct Scan {
    shapes: Vec<Shape>,
    pools: Vec<Pool>,
    bound: u32,
    progress: Progress,
}

impl Scan {
    /// A scan of combinations of up to the size, which does so much work at most: a unit for each combination that is judged,
    /// ten where that takes a division. Nothing is wanted yet. `Want` comes where memory runs out, and nowhere else.
    pub fn new(
        alloc: Global,
        shapes: Vec<Shape>,
        pools: Vec<Pool>,
        bound: u32,
        work: u64,
    ) -> Result<Scan, Want>
        ensures shapes { IfOk result (λ scan. scan.shapes ≡ shapes) }
        ensures pools { IfOk result (λ scan. scan.pools ≡ pools) }
        ensures bound { IfOk result (λ scan. scan.bound ≡ bound) }
    {
        let progress = Progress::new(alloc, shapes.as_slice(), work)?;
        Ok(Scan {
            shapes,
            pools,
            bound,
            progress,
        })
    }

    /// One point more: the value that is wanted there, and for each pool the values of its kept terms. A vector is the
    /// number of its bits, a truth value 0 or 1. Where a value isn't given, no combination of the kept term is named.
    /// `Want` comes where memory runs out, and nowhere else.
    pub fn add_point(&mut self, wanted: i128, columns: Vec<Vec<i128>>) -> Result<(), Want>
        ensures shapes { self.new.shapes ≡ self.old.shapes }
        ensures pools { self.new.pools ≡ self.old.pools }
        ensures bound { self.new.bound ≡ self.old.bound }
    {
        self.progress.add_point(wanted, columns.as_slice())
    }

    /// The next combination that has the wanted values; `None` where nothing is wanted, all are passed, or the stated
    /// work is done. `Want` comes where memory runs out, and nowhere else.
    pub fn next_guess(&mut self) -> Result<Option<Guess>, Want>
        ensures shapes { self.new.shapes ≡ self.old.shapes }
        ensures pools { self.new.pools ≡ self.old.pools }
        ensures bound { self.new.bound ≡ self.old.bound }
        ensures guess { IfOk result (λ found.
            IfSome found (IsGuess self.old.shapes.items self.old.pools.items self.old.bound)) }
    {
        let shapes = self.shapes.as_slice();
        let pools = self.pools.as_slice();
        self.progress.next_guess(shapes, pools, self.bound)
    }
}
