ghost use Rattle.std.specs.Prelude.{◌≡◌, ◌<◌};
ghost use Rattle.refusals.specs.Limits.{longest_side};
ghost use Rattle.corners.specs.Rows.{point_at};
ghost use Rattle.corners.specs.Best.{raised};

use points::Point;

// The point at column x of line y.
pub fn point_at(x: usize, y: usize) -> Point
    requires { (x < longest_side) × (y < longest_side) }
    ensures { result ≡ point_at x y }
{
    Point {
        x: x as i32,
        y: y as i32,
    }
}

// The best of the points met, with its score.
#[derive(Clone, Copy)]
pub struct Best {
    pub place: Point,
    pub score: i32,
}

impl Best {
    // p instead, where it is worth more: of equals the first stays.
    pub fn raised(self, p: Point, worth: i32) -> Best
        ensures { result ≡ raised self p worth }
    {
        if self.score < worth {
            return Best {
                place: p,
                score: worth,
            };
        }
        self
    }
}
