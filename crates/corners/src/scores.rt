ghost use Rattle.std.specs.Prelude.{◌≡◌};
ghost use Rattle.points.specs.Range.{Within, Near};
ghost use Rattle.corners.specs.Scores.{Direction, distance_of, along_of, across_of, left_of, line_from};

use points::Point;

// The square of the distance between p and q.
pub fn distance(p: Point, q: Point) -> i32
    requires fact_1 { Within p }
    requires fact_2 { Within q }
    ensures { result ≡ distance_of p q }
{
    let dx = q.x - p.x;
    let dy = q.y - p.y;
    dx * dx + dy * dy
}

// How far p lies in the direction d.
pub fn along(d: Point, p: Point) -> i32
    requires fact_1 { Direction d }
    requires fact_2 { Within p }
    ensures { result ≡ along_of d p }
{
    p.x * d.x + p.y * d.y
}

// How far p lies to the right of the direction d.
pub fn across(d: Point, p: Point) -> i32
    requires fact_1 { Direction d }
    requires fact_2 { Within p }
    ensures { result ≡ across_of d p }
{
    p.y * d.x - p.x * d.y
}

// How far p lies to the left of the direction d.
pub fn left_of(d: Point, p: Point) -> i32
    requires fact_1 { Direction d }
    requires fact_2 { Within p }
    ensures { result ≡ left_of d p }
{
    -across(d, p)
}

// The direction that leads from p to q.
pub fn line_from(p: Point, q: Point) -> Point
    requires fact_1 { Near p }
    requires fact_2 { Near q }
    ensures { result ≡ line_from p q }
{
    Point {
        x: q.x - p.x,
        y: q.y - p.y,
    }
}
