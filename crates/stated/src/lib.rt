// Stated points: those that document 01 tests for 13 and 12.
#![tactic(auto)]

ghost use Rattle.std.specs.Prelude.{◌≡◌, leb, nat_abs};
ghost use Rattle.refusals.specs.Limits.{farthest};
ghost use Rattle.stated.specs.Stated.{meaning, near, judged, stated_at};

use geometry::Perspective;
use points::Point;
use refusals::Refusal;

// Whether a coordinate is no further out than a stated point's may be.
fn is_within(z: i32) -> bool
    ensures { result ≡ leb (nat_abs z) farthest }
{
    -10000 <= z && z <= 10000
}

// Whether a point is no further out than a stated point may be.
pub fn is_near(p: Point) -> bool
    ensures { result ≡ near p }
{
    if !is_within(p.x) {
        return false;
    }
    is_within(p.y)
}

// A point: 12 where it lies too far out.
pub fn judge(p: Point) -> Result<Point, Refusal>
    ensures { meaning result ≡ judged p }
{
    if !is_near(p) {
        return Err(Refusal::Far);
    }
    Ok(p)
}

// The place of the grid's point (u, v): 13 where it lies at none, then 12 where it lies too far out.
pub fn state(c: Perspective, u: f64, v: f64) -> Result<Point, Refusal>
    ensures { meaning result ≡ stated_at c u v }
{
    judge(c.map(u, v).ok_or(Refusal::Unplaced)?)
}
