// Stones into lent slices.
ghost use Rattle.std.specs.Prelude.{◌≡◌, ◌+◌, ◌≤◌, length};
ghost use Rattle.told_places.specs.Put.{put_at};
ghost use Rattle.exports_marks.specs.Tells.{places_of, all_places, all_floats};

use capstones::CapStone;
use told_places::coefficients::put_floats;
use told_places::spots::put_point;

// A stone's corners and its centre, from a place on.
fn put_places(stone: CapStone, at: usize, out: &mut [i32])
    requires { at + 10 ≤ length out.old }
    ensures { out.new ≡ put_at out.old at (places_of stone) }
{
    let p0 = stone.corner0;
    let p1 = stone.corner1;
    let p2 = stone.corner2;
    let p3 = stone.corner3;
    let p4 = stone.center;
    put_point(p0, at, out);
    put_point(p1, at + 2, out);
    put_point(p2, at + 4, out);
    put_point(p3, at + 6, out);
    put_point(p4, at + 8, out);
}

// All 64 stones of an array.
pub fn put_stones(stones: [CapStone; 64], places: &mut [i32], floats: &mut [f64])
    requires fact_1 { 640 ≤ length places.old }
    requires fact_2 { 512 ≤ length floats.old }
    ensures { (places.new ≡ all_places stones places.old) × (floats.new ≡ all_floats stones floats.old) }
{
    for k in 0..64 {
        let stone = stones[k];
        put_places(stone, k * 10, places);
        put_floats(stone.c, k * 8, floats);
    }
}
