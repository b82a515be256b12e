// Scans: the points from one end to the other.
ghost use Rattle.std.specs.Prelude.{◌≡◌, List, ◌≤◌, length};
ghost use Rattle.refusals.specs.Finding.{found};
ghost use Rattle.scans.specs.Scan.{Good};
ghost use Rattle.scans.specs.Points.{points};
ghost use Rattle.told.specs.Answer.{Told, these};
ghost use Rattle.told_lines.specs.Answers.{flat, scan_answer};

use points::Point;
use scans::BresenhamScan;
use told::{place, put};

// Writes the points that s has still to see.
fn put_points(s: BresenhamScan, out: &mut [i32]) -> u8
    requires fact_1 { Good s }
    requires fact_2 { length (flat (points s)) ≤ length out.old }
    ensures { Told (found (these (flat (points s)))) out.old result out.new }
{
    let mut at: usize = 0;
    for p in s {
        put::numbers_at(at, p.x, p.y, out);
        at += 2;
    }
    0
}

// Writes the points from one end to the other, once both are near and there are places for all.
fn put_scan(from: Point, to: Point, out: &mut [i32]) -> u8
    ensures { Told (scan_answer from to (length out.old)) out.old result out.new }
{
    if place::leaves(from, -10000, 10000) {
        return 12;
    }
    if place::leaves(to, -10000, 10000) {
        return 12;
    }
    let scan = BresenhamScan::new(from, to);
    let steps = scan.d as usize;
    if out.len() < 2 * (steps + 1) {
        return 3;
    }
    put_points(scan, out)
}

// Every point of the scan from one end to the other, x before y.
pub fn scan(x0: i32, y0: i32, x1: i32, y1: i32, out: &mut [i32]) -> u8
    ensures { Told (scan_answer (record { x = x0; y = y0 }) (record { x = x1; y = y1 }) (length out.old)) out.old result out.new }
{
    put_scan(Point { x: x0, y: y0 }, Point { x: x1, y: y1 }, out)
}
