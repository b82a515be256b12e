// Perspectives: four corners are lent as x0 y0 .. x3 y3, a perspective as its eight coefficients.
ghost use Rattle.std.specs.Prelude.{◌≡◌, ◌≤◌, length};
ghost use Rattle.geometry.specs.Map.{meaning};
ghost use Rattle.geometry.specs.declared.Sight.TheVariants.{Made};
ghost use Rattle.told.specs.Answer.{Told};
ghost use Rattle.told_points.specs.Answers.{sight_values, place_values, create_answer, map_answer, unmap_answer};

use geometry::{Perspective, Sight};
use points::Point;
use told::{place, put};
use told_places::coefficients::{perspective_at, put_floats};

// A perspective's eight coefficients.
fn coefficients(p: Perspective, out: &mut [f64]) -> u8
    requires { 8 ≤ length out.old }
    ensures { Told (sight_values (Made p)) out.old result out.new }
{
    put_floats(p, 0, out);
    0
}

fn put_sight(s: Sight, out: &mut [f64]) -> u8
    requires { 8 ≤ length out.old }
    ensures { Told (sight_values s) out.old result out.new }
{
    match s {
        Sight::Made(p) => coefficients(p, out),
        Sight::Flat => 255,
    }
}

fn put_spot(s: Option<Point>, out: &mut [i32]) -> u8
    requires { 2 ≤ length out.old }
    ensures { Told (place_values (meaning s)) out.old result out.new }
{
    match s {
        Some(p) => put::numbers(p.x, p.y, out),
        None => 13,
    }
}

// The perspective that takes the corners of a w by h rectangle to four points, once all are there and there are places for it.
pub fn create(corners: &[i32], w: f64, h: f64, out: &mut [f64]) -> u8
    ensures { Told (create_answer corners.now w h (length out.old)) out.old result out.new }
{
    if corners.len() < 8 {
        return 3;
    }
    if out.len() < 8 {
        return 3;
    }
    let p0 = place::point_at(corners, 0, 1);
    let p1 = place::point_at(corners, 2, 3);
    let p2 = place::point_at(corners, 4, 5);
    let p3 = place::point_at(corners, 6, 7);
    put_sight(Perspective::create(p0, p1, p2, p3, w, h), out)
}

// The pixel's place at which the grid's point (u, v) lies.
pub fn map(c: &[f64], u: f64, v: f64, out: &mut [i32]) -> u8
    ensures { Told (map_answer c.now u v (length out.old)) out.old result out.new }
{
    if c.len() < 8 {
        return 3;
    }
    if out.len() < 2 {
        return 3;
    }
    put_spot(perspective_at(c, 0).map(u, v), out)
}

// The grid's point that lies at (x, y).
pub fn unmap(c: &[f64], x: i32, y: i32, out: &mut [f64]) -> u8
    ensures { Told (unmap_answer c.now x y (length out.old)) out.old result out.new }
{
    if c.len() < 8 {
        return 3;
    }
    if out.len() < 2 {
        return 3;
    }
    let g = perspective_at(c, 0).unmap(Point { x: x, y: y });
    put::floats(g.u, g.v, out)
}
