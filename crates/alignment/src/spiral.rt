// The spiral: its passes, one place further each, and its legs, each at a right angle to the one before.
ghost use Rattle.std.specs.Prelude.{◌≡◌, ◌+◌, ◌^◌, ◌<◌, nat_abs};
ghost use Rattle.alignment.specs.Spiral.{first_pass, leg_of, next_pass, way_x, way_y, moved, Turning};

use points::Point;
use sizes::sum;

// A pass of the spiral: its direction, how many passes its leg has, and how many of them are left, this one included.
// The direction is a number and no enum: `moved` takes any, and the laws `leg_goes_on` and `leg_ends` speak of every one.
#[derive(Clone, Copy)]
pub struct Pass {
    pub dir: usize,
    pub step: usize,
    pub left: usize,
}

// The first pass of a leg.
fn leg(dir: usize, step: usize) -> Pass
    ensures { result ≡ leg_of dir step }
{
    Pass {
        dir: dir,
        step: step,
        left: step,
    }
}

// The first pass of all.
pub fn first_pass() -> Pass
    ensures { result ≡ first_pass }
{
    leg(0, 1)
}

// How far a direction leads to the right.
fn way_x(dir: usize) -> i32
    ensures { result ≡ way_x dir }
{
    match dir {
        0 => 1,
        2 => -1,
        _ => 0,
    }
}

// How far a direction leads down.
fn way_y(dir: usize) -> i32
    ensures { result ≡ way_y dir }
{
    match dir {
        1 => -1,
        3 => 1,
        _ => 0,
    }
}

impl Pass {
    // The next pass: of the same leg, or the first of the next leg.
    pub fn next(self) -> Pass
        requires { Turning self }
        ensures { result ≡ next_pass self }
    {
        let dir = self.dir;
        let step = self.step;
        let left = self.left;
        if left > 1 {
            return Pass {
                dir: dir,
                step: step,
                left: left - 1,
            };
        }
        let turned = (dir + 1) % 4;
        if turned % 2 == 0 {
            return leg(turned, step + 1);
        }
        leg(turned, step)
    }

    // The place that the pass leads to.
    pub fn moved(self, at: Point) -> Point
        requires { (nat_abs at.x + 1 < 2 ^ 31) × (nat_abs at.y + 1 < 2 ^ 31) }
        ensures { result ≡ moved self at }
    {
        let dir = self.dir;
        let x = sum(at.x, way_x(dir));
        let y = sum(at.y, way_y(dir));
        Point { x: x, y: y }
    }
}
