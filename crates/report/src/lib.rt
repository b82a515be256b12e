// The lines that `locate` prints, made in a buffer that the caller lends (document 01, "Program `locate`"). Each function answers the place after what it put, and asks room for the longest line that it can put.
// Bytes are put one by one: `write!` tells the bytes that it wrote only of a `String`, and these crates have no heap.
#![tactic(auto)]

ghost use Rattle.std.specs.Prelude.{◌+◌, ◌≤◌, length};
ghost use Rattle.report.specs.Lines.{refused_line, count_lines, grid_line};
ghost use Rattle.report.specs.Puts.{Puts};

use geometry::Perspective;
use points::Point;

mod lines;
mod numbers;
mod put;

// What is told of a grid: its size, its perspective, and its bounds.
#[derive(Clone, Copy)]
pub struct Line {
    pub size: u8,
    pub c: Perspective,
    pub bound0: Point,
    pub bound1: Point,
    pub bound2: Point,
    pub bound3: Point,
}

// `refused` and the number of the refusal.
pub fn put_refused(number: u8, out: &mut [u8], at: usize) -> usize
    requires { at + 29 ≤ length out.old }
    ensures { Puts 29 (refused_line number) out.old at out.new result }
{
    lines::count(b"refused", number as u64, out, at)
}

// `capstones` and how many there are, `grids` and how many.
pub fn put_counts(capstones: usize, grids: usize, out: &mut [u8], at: usize) -> usize
    requires { at + 58 ≤ length out.old }
    ensures { Puts 58 (count_lines capstones grids) out.old at out.new result }
{
    let after = lines::count(b"capstones", capstones as u64, out, at);
    lines::count(b"grids", grids as u64, out, after)
}

// The line of a grid.
pub fn put_grid(line: Line, out: &mut [u8], at: usize) -> usize
    requires { at + 236 ≤ length out.old }
    ensures { Puts 236 (grid_line line) out.old at out.new result }
{
    let c = line.c;
    let a0 = numbers::decimal(line.size as u64, out, at);
    let a1 = lines::coefficients(c, out, a0);
    let a2 = lines::bounds(line, out, a1);
    put::byte(b'\n', out, a2)
}
