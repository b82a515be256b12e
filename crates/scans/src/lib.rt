#![tactic(auto)]

ghost use Rattle.std.specs.Prelude.{◌≡◌, ◌+◌, ◌-◌, ◌≤◌, nat_abs};
ghost use Rattle.std.specs.Iterator.{at_most};
ghost use Rattle.refusals.specs.Limits.{farthest};
ghost use Rattle.points.specs.Range.{Near};
ghost use Rattle.scans.specs.Scan.{way_of, start_of, scan_of, placed_by, moved_by, next_of, step_of, Good};

use points::Point;
use sizes::{diff, sum, unsigned_abs};

// A walk from one point to another, a point at a time: the larger distance leads, and each step goes one on in its direction.
#[derive(Clone, Copy)]
pub struct BresenhamScan {
    // the point that comes next
    pub x: i32,
    pub y: i32,
    // one step in the leading direction, and one in the other
    pub domstep: i32,
    pub nonstep: i32,
    // how many points were seen
    pub i: u32,
    // the distance in the leading direction, and in the other
    pub d: u32,
    pub n: u32,
    // what has gathered towards a step in the other direction
    pub a: u32,
    // whether x leads
    pub xdom: bool,
}

// One step in a number's direction.
fn way(z: i32) -> i32
    ensures { result ≡ way_of z }
{
    if z < 0 {
        return -1;
    }
    1
}

impl BresenhamScan {
    // The scan from one point to another.
    pub fn new(from: Point, to: Point) -> Self
        requires fact_1 { Near from }
        requires fact_2 { Near to }
        ensures { result ≡ scan_of from to }
    {
        let across = diff(to.x, from.x);
        let down = diff(to.y, from.y);
        let w = unsigned_abs(across);
        let h = unsigned_abs(down);
        if w > h {
            return BresenhamScan::start(from, across, down, true);
        }
        BresenhamScan::start(from, down, across, false)
    }

    // The scan that has `lead` to go in the leading direction and `side` in the other.
    fn start(from: Point, lead: i32, side: i32, xleads: bool) -> Self
        requires fact_1 { nat_abs lead ≤ farthest + farthest }
        requires fact_2 { nat_abs side ≤ farthest + farthest }
        ensures { result ≡ start_of from lead side xleads }
    {
        let far = unsigned_abs(lead);
        let near = unsigned_abs(side);
        let dom = way(lead);
        let non = way(side);
        BresenhamScan {
            x: from.x,
            y: from.y,
            domstep: dom,
            nonstep: non,
            i: 0,
            d: far,
            n: near,
            a: near,
            xdom: xleads,
        }
    }

    // One on in the leading direction, and one in the other where enough has gathered.
    fn moved_on(self) -> Self
        requires fact_1 { Good self }
        requires fact_2 { self.i ≤ self.d }
        ensures { result ≡ next_of self }
    {
        let d = self.d;
        let a = self.a + self.n;
        if a >= d {
            return self.moved(self.nonstep, a - d);
        }
        self.moved(0, a)
    }

    // One on in the leading direction, and `off` in the other.
    fn moved(self, off: i32, left: u32) -> Self
        requires fact_1 { Good self }
        requires fact_2 { self.i ≤ self.d }
        requires fact_3 { nat_abs off ≤ 1 }
        ensures { result ≡ moved_by self off left }
    {
        if self.xdom {
            return self.placed(self.domstep, off, left);
        }
        self.placed(off, self.domstep, left)
    }

    // Moved by (dx, dy), with `left` gathered.
    fn placed(self, dx: i32, dy: i32, left: u32) -> Self
        requires fact_1 { Good self }
        requires fact_2 { self.i ≤ self.d }
        requires fact_3 { nat_abs dx ≤ 1 }
        requires fact_4 { nat_abs dy ≤ 1 }
        ensures { result ≡ placed_by self dx dy left }
    {
        BresenhamScan {
            x: sum(self.x, dx),
            y: sum(self.y, dy),
            i: self.i + 1,
            a: left,
            ..self
        }
    }
}

impl Iterator for BresenhamScan {
    type Item = Point;

    ghost can_next = { Good };

    ghost next_gives = { λ s p t. step_of s ≡ (p, t) };

    ghost remaining = { λ s. at_most (s.d + 1 - s.i) };

    // Sees the point that comes next, and moves on.
    fn next(&mut self) -> Option<Point> {
        if self.i > self.d {
            return None;
        }
        let seen = Point {
            x: self.x,
            y: self.y,
        };
        *self = self.moved_on();
        Some(seen)
    }
}
