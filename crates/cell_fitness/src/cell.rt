// One cell: nine points of it, each at the pixel that the perspective maps it to. Where all nine lie is worked out before the first pixel is looked at, so that a compiler divides in pairs.
ghost use Rattle.std.specs.Prelude.{◌≡◌, true, false, pos, negsuc, length};
ghost use Rattle.std.specs.Int.Signed.{lt_z};
ghost use Rattle.std.specs.Float.Ieee.{lt};
ghost use Rattle.std.specs.Float.{fin};
ghost use Rattle.rounding.specs.Nearest.{nearest_of};
ghost use Rattle.geometry.specs.Map.{map_den, map_x, map_y};
ghost use Rattle.picture.specs.Sides.{Sized};
ghost use Rattle.cell_fitness.specs.Seen.{cell_of};
ghost use Rattle.cell_fitness.specs.Along.{along, beside_at, seen_at};
ghost use Rattle.cell_fitness.specs.Landed.{landed, landed_line, point_at, line_at};
ghost use Rattle.cell_fitness.specs.Scores.{Scores};

use crate::Fitness;
use geometry::Perspective;

// Where a point lies in the picture, before its coordinates are rounded.
#[derive(Clone, Copy)]
struct Landing {
    right: f64,
    below: f64,
}

// Where the three points of a cell lie that are at one height.
#[derive(Clone, Copy)]
struct Landings {
    first: Landing,
    second: Landing,
    third: Landing,
}

// A coordinate that is not below 0, as a place along a side.
fn from_zero(i: i32) -> usize
    requires { lt_z i (pos 0) ≡ false }
    ensures { pos result ≡ i }
{
    i as usize
}

// The place that q, which is above 0, rounds to.
fn ahead(q: f64) -> usize
    requires { lt (fin false 0 (pos 0)) q ≡ true }
    ensures { result ≡ along (nearest_of q) }
{
    match rounding::nearest(q) {
        Some(i) => from_zero(i),
        None => 2147483649,
    }
}

// The same for a q that is not above -1/2.
fn behind(q: f64) -> usize
    requires { lt (fin true 1 (negsuc 0)) q ≡ false }
    ensures { result ≡ along (nearest_of q) }
{
    match rounding::nearest(q) {
        Some(i) => 2147483648,
        None => 2147483649,
    }
}

// The place that q rounds to. Most points lie in the picture, so their tests come first.
fn along(q: f64) -> usize
    ensures { result ≡ along (nearest_of q) }
{
    if q > 0.0 {
        return ahead(q);
    }
    if q > -0.5 {
        return 0;
    }
    behind(q)
}

// Two places of which no pixel has both.
fn beside(x: usize, y: usize) -> Fitness
    ensures { Scores (beside_at x y) 1 result }
{
    if x > 2147483648 {
        return Fitness::Unplaced;
    }
    if y > 2147483648 {
        return Fitness::Unplaced;
    }
    Fitness::Score(0)
}

// 1 where the picture is not white in column x of line y, -1 where it is, and 0 beside it.
fn dark_at(pic: &[u8], width: usize, height: usize, x: usize, y: usize) -> Fitness
    requires { Sized width height (length pic.now) }
    ensures { Scores (seen_at pic.now width height x y) 1 result }
{
    if x >= width {
        return beside(x, y);
    }
    if y >= height {
        return beside(x, y);
    }
    if pic[y * width + x] == 0 {
        return Fitness::Score(-1);
    }
    Fitness::Score(1)
}

// What both coordinates of the grid's point (u, v) are divided by.
fn den_at(c: Perspective, u: f64, v: f64) -> f64
    ensures { result ≡ map_den c u v }
{
    c.c6 * u + c.c7 * v + 1.0
}

// How far to the right the point lies, before that is rounded. Across and down apart, so that each reads as the formula of its coordinate.
fn across(c: Perspective, u: f64, v: f64) -> f64
    ensures { result ≡ map_x c u v }
{
    let den = den_at(c, u, v);
    (c.c0 * u + c.c1 * v + c.c2) / den
}

// How far down it lies.
fn down(c: Perspective, u: f64, v: f64) -> f64
    ensures { result ≡ map_y c u v }
{
    let den = den_at(c, u, v);
    (c.c3 * u + c.c4 * v + c.c5) / den
}

// Where the grid's point (u, v) lies.
fn land(c: Perspective, u: f64, v: f64) -> Landing
    ensures { result ≡ landed c u v }
{
    let right = across(c, u, v);
    let below = down(c, u, v);
    Landing {
        right: right,
        below: below,
    }
}

// Where the three points of a cell that starts at x lie, at the height v.
fn land_line(c: Perspective, x: f64, v: f64) -> Landings
    ensures { result ≡ landed_line c x v }
{
    let first = land(c, x + 0.3, v);
    let second = land(c, x + 0.5, v);
    let third = land(c, x + 0.7, v);
    Landings {
        first: first,
        second: second,
        third: third,
    }
}

// What the picture shows where a point lies.
fn fitness_point(pic: &[u8], width: usize, height: usize, at: Landing) -> Fitness
    requires { Sized width height (length pic.now) }
    ensures { Scores (point_at pic.now width height at) 1 result }
{
    let x = along(at.right);
    let y = along(at.below);
    dark_at(pic, width, height, x, y)
}

// What it shows where three points lie.
fn fitness_line(pic: &[u8], width: usize, height: usize, at: Landings) -> Fitness
    requires { Sized width height (length pic.now) }
    ensures { Scores (line_at pic.now width height at) 3 result }
{
    let one = fitness_point(pic, width, height, at.first);
    let two = one.plus(fitness_point(pic, width, height, at.second));
    two.plus(fitness_point(pic, width, height, at.third))
}

// The cell in column x of line y: how many of its nine points are dark, less those that are white.
pub fn fitness_cell(
    pic: &[u8],
    width: usize,
    height: usize,
    c: Perspective,
    x: u32,
    y: u32,
) -> Fitness
    requires { Sized width height (length pic.now) }
    ensures { Scores (cell_of pic.now width height c x y) 9 result }
{
    let left = x as f64;
    let top = y as f64;
    let first = land_line(c, left, top + 0.3);
    let second = land_line(c, left, top + 0.5);
    let third = land_line(c, left, top + 0.7);
    let one = fitness_line(pic, width, height, first);
    let two = one.plus(fitness_line(pic, width, height, second));
    two.plus(fitness_line(pic, width, height, third))
}
