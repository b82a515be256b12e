// Lines, by two of their points each.
ghost use Rattle.std.specs.Prelude.{◌≤◌, length};
ghost use Rattle.told.specs.Answer.{Told};
ghost use Rattle.told_lines.specs.Answers.{meet_values, cross_values, cross_answer};

use points::Point;
use told::{place, put};

fn put_meet(m: Option<Point>, out: &mut [i32]) -> u8
    requires { 2 ≤ length out.old }
    ensures { Told (meet_values m) out.old result out.new }
{
    match m {
        Some(p) => put::numbers(p.x, p.y, out),
        None => 255,
    }
}

// The crossing, once the four points are pixels.
fn put_crossing(p0: Point, p1: Point, q0: Point, q1: Point, out: &mut [i32]) -> u8
    requires { 2 ≤ length out.old }
    ensures { Told (cross_values p0 p1 q0 q1) out.old result out.new }
{
    if place::leaves(p0, 0, 799) {
        return 12;
    }
    if place::leaves(p1, 0, 799) {
        return 12;
    }
    if place::leaves(q0, 0, 799) {
        return 12;
    }
    if place::leaves(q1, 0, 799) {
        return 12;
    }
    put_meet(lines::line_intersect(p0, p1, q0, q1), out)
}

// Where two lines cross, once all four points are there and there are places for the crossing.
pub fn line_intersect(points: &[i32], out: &mut [i32]) -> u8
    ensures { Told (cross_answer points.now (length out.old)) out.old result out.new }
{
    if points.len() < 8 {
        return 3;
    }
    if out.len() < 2 {
        return 3;
    }
    let p0 = place::point_at(points, 0, 1);
    let p1 = place::point_at(points, 2, 3);
    let q0 = place::point_at(points, 4, 5);
    let q1 = place::point_at(points, 6, 7);
    put_crossing(p0, p1, q0, q1, out)
}
