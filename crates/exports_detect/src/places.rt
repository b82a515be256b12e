// Grids into lent slices.
ghost use Rattle.std.specs.Prelude.{◌≡◌, ◌+◌, ◌≤◌, pos, length, set};
ghost use Rattle.told_places.specs.Put.{put_at};
ghost use Rattle.exports_detect.specs.Tells.{places_of, all_places, all_floats};

use bounds::Grid;
use told_places::coefficients::put_floats;
use told_places::spots::put_point;

// A grid's size, at a place.
fn put_size(size: u8, at: usize, out: &mut [i32])
    requires { at + 1 ≤ length out.old }
    ensures { out.new ≡ set out.old at (pos size) }
{
    out[at] = size as i32;
}

// A grid's size and its bounds, from a place on.
fn put_places(grid: Grid, at: usize, out: &mut [i32])
    requires { at + 9 ≤ length out.old }
    ensures { out.new ≡ put_at out.old at (places_of grid) }
{
    let size = grid.size;
    let b0 = grid.bound0;
    let b1 = grid.bound1;
    let b2 = grid.bound2;
    let b3 = grid.bound3;
    put_size(size, at, out);
    put_point(b0, at + 1, out);
    put_point(b1, at + 3, out);
    put_point(b2, at + 5, out);
    put_point(b3, at + 7, out);
}

// All 31 grids of an array.
pub fn put_grids(grids: [Grid; 31], places: &mut [i32], floats: &mut [f64])
    requires fact_1 { 279 ≤ length places.old }
    requires fact_2 { 248 ≤ length floats.old }
    ensures { (places.new ≡ all_places grids places.old) × (floats.new ≡ all_floats grids floats.old) }
{
    for k in 0..31 {
        let grid = grids[k];
        put_places(grid, k * 9, places);
        put_floats(grid.c, k * 8, floats);
    }
}
