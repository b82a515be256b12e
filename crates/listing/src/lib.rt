// All that `locate` prints of what was found, made in a buffer that the caller lends (document 01, "Program `locate`").
#![tactic(auto)]

ghost use Rattle.std.specs.Prelude.{◌≡◌, ◌+◌, ◌*◌, ◌≤◌, length, take};
ghost use Rattle.refusals.specs.Finding.{found};
ghost use Rattle.report.specs.Puts.{Puts};
ghost use Rattle.detect.specs.Telling.{tells, outcome};
ghost use Rattle.listing.specs.Listing.{line_of, grid_lines, listing, Few};

use bounds::Grid;
use detect::Findings;
use refusals::Refusal;
use report::{Line, put_counts, put_grid, put_refused};

// What is told of a grid.
fn line_of(grid: Grid) -> Line
    ensures { result ≡ line_of grid }
{
    let c = grid.c;
    let bound0 = grid.bound0;
    let bound1 = grid.bound1;
    let bound2 = grid.bound2;
    let bound3 = grid.bound3;
    Line {
        size: grid.size,
        c: c,
        bound0: bound0,
        bound1: bound1,
        bound2: bound2,
        bound3: bound3,
    }
}

// The lines of the first n grids, one after the other. Each has 236 bytes at most.
fn put_grids(grids: [Grid; 31], n: usize, out: &mut [u8], at: usize) -> usize
    requires { (n ≤ 31) × (at + n * 236 ≤ length out.old) }
    ensures { Puts (n * 236) (grid_lines (take n grids)) out.old at out.new result }
{
    let mut next = at;
    for k in 0..n {
        let grid = grids[k];
        next = put_grid(line_of(grid), out, next);
    }
    next
}

// The counts, then the grids.
fn put_found(stones: usize, grids: [Grid; 31], n: usize, out: &mut [u8]) -> usize
    requires { (n ≤ 31) × (7374 ≤ length out.old) }
    ensures { Puts 7374 (listing (tells stones (found (take n grids)))) out.old 0 out.new result }
{
    let after = put_counts(stones, n, out, 0);
    put_grids(grids, n, out, after)
}

// What was found, or why there is a refusal. The longest text has 58 bytes of counts, and 31 lines.
pub fn put_findings(findings: Result<Findings, Refusal>, out: &mut [u8]) -> usize
    requires { Few findings × (7374 ≤ length out.old) }
    ensures { Puts 7374 (listing (outcome findings)) out.old 0 out.new result }
{
    match findings {
        Ok(found) => put_found(found.stones, found.grids, found.n, out),
        Err(why) => put_refused(u8::from(why), out, 0),
    }
}
