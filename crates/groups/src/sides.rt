// On which side of a line a point lies.
ghost use Rattle.std.specs.Prelude.{◌≡◌};
ghost use Rattle.points.specs.Range.{Near};
ghost use Rattle.corners.specs.Scores.{Direction};
ghost use Rattle.groups.specs.Side.{side_of, reversed};

use corners::line_from;
use points::Point;
use sizes::{cross, opposite};

// The opposite direction.
pub fn reversed(d: Point) -> Point
    requires { Direction d }
    ensures { result ≡ reversed d }
{
    let x = opposite(d.x);
    let y = opposite(d.y);
    Point { x: x, y: y }
}

// How far p lies to the right of the line through h0 in the direction hd, times the length of hd.
pub fn side_of(h0: Point, hd: Point, p: Point) -> i32
    requires fact_1 { Near h0 }
    requires fact_2 { Direction hd }
    requires fact_3 { Near p }
    ensures { result ≡ side_of h0 hd p }
{
    let way = line_from(h0, p);
    cross(way.y, hd.x, way.x, hd.y)
}
