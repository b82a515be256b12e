// The timing pattern between three stones, and the grid size that it tells (identify/grid.rs, `measure_timing_pattern`).
#![tactic(auto)]

mod scan;
mod size;

ghost use Rattle.std.specs.Prelude.{◌≡◌, ◌≤◌, length};
ghost use Rattle.points.specs.Range.{Near};
ghost use Rattle.picture.specs.Sides.{Sized};
ghost use Rattle.timing.specs.Counted.{most_changes};
ghost use Rattle.timing.specs.Measure.{meaning, size_by, size_between, measured_of};

use geometry::Perspective;
use points::Point;
use refusals::Refusal;
pub use scan::timing_scan;
pub use size::grid_size;
use stated::state;

// The size that two scans tell: 14 where both count 0.
fn size_by(hscan: usize, vscan: usize) -> Result<usize, Refusal>
    requires fact_1 { hscan ≤ most_changes }
    requires fact_2 { vscan ≤ most_changes }
    ensures { meaning result ≡ size_by hscan vscan }
{
    let scan = hscan.max(vscan);
    if scan == 0 {
        return Err(Refusal::Timing);
    }
    Ok(grid_size(scan))
}

// The size that the scans from the middle one of three ends to the others tell.
fn size_between(
    pic: &[u8],
    width: usize,
    height: usize,
    p0: Point,
    p1: Point,
    p2: Point,
) -> Result<usize, Refusal>
    requires fact_1 { Sized width height (length pic.now) }
    requires fact_2 { Near p0 }
    requires fact_3 { Near p1 }
    requires fact_4 { Near p2 }
    ensures { meaning result ≡ size_between pic.now width height p0 p1 p2 }
{
    let hscan = timing_scan(pic, width, height, p1, p2);
    let vscan = timing_scan(pic, width, height, p1, p0);
    size_by(hscan, vscan)
}

// The grid size that the timing pattern between three stones tells, by their perspectives: 13 and 12 end by end, then 14.
pub fn measure_timing_pattern(
    pic: &[u8],
    width: usize,
    height: usize,
    c0: Perspective,
    c1: Perspective,
    c2: Perspective,
) -> Result<usize, Refusal>
    requires { Sized width height (length pic.now) }
    ensures { meaning result ≡ measured_of pic.now width height c0 c1 c2 }
{
    let p0 = state(c0, 6.5, 0.5)?;
    let p1 = state(c1, 6.5, 6.5)?;
    let p2 = state(c2, 0.5, 6.5)?;
    size_between(pic, width, height, p0, p1, p2)
}
