// Words of a line: each later one stands after a single space.
ghost use Rattle.std.specs.Prelude.{◌+◌, ◌≤◌, length};
ghost use Rattle.report.specs.Numbers.{signed, float};
ghost use Rattle.report.specs.Lines.{later, count_line, four_text, coefficient_text, point_text, bound_text};
ghost use Rattle.report.specs.Puts.{Puts};

use crate::{Line, numbers, put};
use geometry::Perspective;
use points::Point;

// A word and a number, on a line of their own.
pub fn count(word: &[u8], n: u64, out: &mut [u8], at: usize) -> usize
    requires { at + (length word.now + 22) ≤ length out.old }
    ensures { Puts (length word.now + 22) (count_line word.now n) out.old at out.new result }
{
    let a0 = put::word(word, out, at);
    let a1 = put::byte(b' ', out, a0);
    let a2 = numbers::decimal(n, out, a1);
    put::byte(b'\n', out, a2)
}

// A coefficient, as a later word.
fn coefficient(x: f64, out: &mut [u8], at: usize) -> usize
    requires { at + 17 ≤ length out.old }
    ensures { Puts 17 (later (float x)) out.old at out.new result }
{
    let after = put::byte(b' ', out, at);
    numbers::float(x, out, after)
}

// A coordinate, as a later word.
fn coordinate(z: i32, out: &mut [u8], at: usize) -> usize
    requires { at + 12 ≤ length out.old }
    ensures { Puts 12 (later (signed z)) out.old at out.new result }
{
    let after = put::byte(b' ', out, at);
    numbers::signed(z, out, after)
}

// Four coefficients.
fn four(a: f64, b: f64, c: f64, d: f64, out: &mut [u8], at: usize) -> usize
    requires { at + 68 ≤ length out.old }
    ensures { Puts 68 (four_text a b c d) out.old at out.new result }
{
    let a0 = coefficient(a, out, at);
    let a1 = coefficient(b, out, a0);
    let a2 = coefficient(c, out, a1);
    coefficient(d, out, a2)
}

// The coefficients of a perspective, in their order.
pub fn coefficients(c: Perspective, out: &mut [u8], at: usize) -> usize
    requires { at + 136 ≤ length out.old }
    ensures { Puts 136 (coefficient_text c) out.old at out.new result }
{
    let after = four(c.c0, c.c1, c.c2, c.c3, out, at);
    four(c.c4, c.c5, c.c6, c.c7, out, after)
}

// A point: its x and its y.
fn point(p: Point, out: &mut [u8], at: usize) -> usize
    requires { at + 24 ≤ length out.old }
    ensures { Puts 24 (point_text p) out.old at out.new result }
{
    let after = coordinate(p.x, out, at);
    coordinate(p.y, out, after)
}

// The four bounds, in their order.
pub fn bounds(line: Line, out: &mut [u8], at: usize) -> usize
    requires { at + 96 ≤ length out.old }
    ensures { Puts 96 (bound_text line) out.old at out.new result }
{
    let a0 = point(line.bound0, out, at);
    let a1 = point(line.bound1, out, a0);
    let a2 = point(line.bound2, out, a1);
    point(line.bound3, out, a2)
}
