#![tactic(auto)]

ghost use Rattle.std.specs.Prelude.{◌≡◌, ◌^◌, ◌<◌, nat_abs};
ghost use Rattle.std.specs.Int.Signed.{quot_z};
ghost use Rattle.points.specs.Range.{Within};
ghost use Rattle.lines.specs.Meet.{Small, line_of, crossing, meet_of};

use points::Point;
use sizes::{cross, diff, dot, opposite};

// The line a x + b y = e: (a, b) stands at right angles to it.
#[derive(Clone, Copy)]
struct Line {
    a: i32,
    b: i32,
    e: i32,
}

fn line_through(p: Point, q: Point) -> Line
    requires fact_1 { Within p }
    requires fact_2 { Within q }
    ensures { result ≡ line_of p q }
{
    let x = q.x;
    let y = q.y;
    let a = opposite(diff(y, p.y));
    let b = diff(x, p.x);
    let e = dot(a, x, b, y);
    Line { a: a, b: b, e: e }
}

// A quotient, toward zero.
fn over(n: i32, d: i32) -> i32
    requires { (nat_abs n < 2 ^ 31) × (0 < nat_abs d) }
    ensures { result ≡ quot_z n d }
{
    n / d
}

// Solves the equations of two lines by the inverse of their matrix.
fn solve(l: Line, m: Line) -> Option<Point>
    requires fact_1 { Small l }
    requires fact_2 { Small m }
    ensures { result ≡ crossing l m }
{
    let a = l.a;
    let b = l.b;
    let c = m.a;
    let d = m.b;
    let e = l.e;
    let f = m.e;
    let det = cross(a, d, b, c);
    if det == 0 {
        return None;
    }
    let x = over(cross(d, e, b, f), det);
    let y = over(dot(opposite(c), e, a, f), det);
    Some(Point { x: x, y: y })
}

// Where the line through p0 and p1 meets the one through q0 and q1, each coordinate cut toward zero.
pub fn line_intersect(p0: Point, p1: Point, q0: Point, q1: Point) -> Option<Point>
    requires fact_1 { Within p0 }
    requires fact_2 { Within p1 }
    requires fact_3 { Within q0 }
    requires fact_4 { Within q1 }
    ensures { result ≡ meet_of p0 p1 q0 q1 }
{
    solve(line_through(p0, p1), line_through(q0, q1))
}
