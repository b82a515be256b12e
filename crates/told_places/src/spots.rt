// A point into a lent slice.
ghost use Rattle.std.specs.Prelude.{◌≡◌, ◌+◌, ◌≤◌, length, set};

use points::Point;
use told::put::numbers_at;

// Its coordinates, from a place on.
pub fn put_point(p: Point, at: usize, out: &mut [i32])
    requires { at + 2 ≤ length out.old }
    ensures { out.new ≡ set (set out.old at p.x) (at + 1) p.y }
{
    numbers_at(at, p.x, p.y, out);
}
