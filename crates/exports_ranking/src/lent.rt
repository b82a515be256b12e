// Stones from lent slices.
ghost use Rattle.std.specs.Prelude.{◌≡◌, ◌≤◌, ◌<◌, length};
ghost use Rattle.exports_ranking.specs.Ranks.{lent_stone, lent_stones};

use capstones::CapStone;
use points::Point;
use std::array;
use told::place::point_at;
use told_places::coefficients::perspective_at;

// Stone k: its corners are not lent, and lie at the origin.
fn stone_at(centers: &[i32], floats: &[f64], k: usize) -> CapStone
    requires { (k < 64) × (128 ≤ length centers.now) × (512 ≤ length floats.now) }
    ensures { result ≡ lent_stone centers.now floats.now k }
{
    let nowhere = Point { x: 0, y: 0 };
    let center = point_at(centers, k * 2, k * 2 + 1);
    let c = perspective_at(floats, k * 8);
    CapStone {
        corner0: nowhere,
        corner1: nowhere,
        corner2: nowhere,
        corner3: nowhere,
        center: center,
        c: c,
    }
}

// All 64 stones.
pub fn stones_of(centers: &[i32], floats: &[f64]) -> [CapStone; 64]
    requires { (128 ≤ length centers.now) × (512 ≤ length floats.now) }
    ensures { result ≡ lent_stones centers.now floats.now 64 }
{
    array::from_fn(|k| stone_at(centers, floats, k))
}
