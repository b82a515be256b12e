// The located grids, one after the other.
ghost use Rattle.std.specs.Prelude.{◌≡◌, ◌≤◌, take};
ghost use Rattle.bounded.specs.Held.{outcome_of, LaidOut};
ghost use Rattle.bounded.specs.All.{bounded_all};

use crate::Grids;
use crate::held::{none, with_grid};
use bounds::bounds_of;
use grids::SkewedGridLocation;
use refusals::Refusal;

// The first n located grids with their bounds; one that has a bound nowhere refuses them all.
pub fn bound_all(locations: [SkewedGridLocation; 31], n: usize) -> Result<Grids, Refusal>
    requires { n ≤ 31 }
    ensures { (outcome_of result ≡ bounded_all (take n locations)) × LaidOut result }
{
    let mut sofar = none();
    for k in 0..n {
        let grid = bounds_of(locations[k]).ok_or(Refusal::Unplaced)?;
        sofar = with_grid(sofar, grid);
    }
    Ok(sofar)
}
