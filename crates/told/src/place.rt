// Points that a caller hands over: where they stand in a lent slice, and whether they lie too far out.
ghost use Rattle.std.specs.Prelude.{◌≡◌, ◌<◌, length};
ghost use Rattle.told.specs.Points.{point_at, between, leaves};

use points::Point;

// The point whose coordinates stand at i and j.
pub fn point_at(numbers: &[i32], i: usize, j: usize) -> Point
    requires fact_1 { i < length numbers.now }
    requires fact_2 { j < length numbers.now }
    ensures { result ≡ point_at numbers.now i j }
{
    Point {
        x: numbers[i],
        y: numbers[j],
    }
}

fn between(low: i32, z: i32, high: i32) -> bool
    ensures { result ≡ between low z high }
{
    low <= z && z <= high
}

// Whether a coordinate of p is not from low to high.
pub fn leaves(p: Point, low: i32, high: i32) -> bool
    ensures { result ≡ leaves p low high }
{
    if between(low, p.x, high) {
        return !between(low, p.y, high);
    }
    true
}
