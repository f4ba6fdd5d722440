// The first value of a point that isn't whole.
ghost use Rattle.std.specs.Prelude.{◌<◌, ◌^◌, length};
ghost use Rattle.sy_intsolve_cuts.specs.Points.{FirstBroken};

use sy_frac::{Frac, broken};

/// The first variable whose value isn't a whole number, and the greatest whole number below that value; `None` exactly
/// where all values are whole.
pub fn first_broken(point: &[Frac]) -> Option<(u32, i128)>
    requires { length point.now < 2 ^ 31 }
    ensures { FirstBroken point.now result }
{
    for at in 0..point.len() {
        if let Some(below) = broken(&point[at]) {
            return Some((at as u32, below));
        }
    }
    None
}
