// What a picture shows at a point, which may lie beside it (prepare.rs, `get_pixel_at_point`).
#![tactic(auto)]

ghost use Rattle.std.specs.Prelude.{◌≡◌, ◌<◌, ◌≤◌, length};
ghost use Rattle.refusals.specs.Limits.{longest_side};
ghost use Rattle.picture.specs.Sides.{Sized};
ghost use Rattle.pixels.specs.Nearest.{clamped, shown_at};

use points::Point;

// The coordinate nearest to z along a side.
fn clamp(z: i32, side: usize) -> usize
    requires { (0 < side) × (side ≤ longest_side) }
    ensures { (result ≡ clamped side z) × (result < side) }
{
    if z < 0 {
        return 0;
    }
    let n = z as usize;
    if n < side {
        return n;
    }
    side - 1
}

// The byte that the picture shows at p; beside the picture, at the pixel nearest to p.
pub fn get_pixel_at_point(pic: &[u8], width: usize, height: usize, p: Point) -> u8
    requires { Sized width height (length pic.now) }
    ensures { result ≡ shown_at pic.now width height p }
{
    let x = clamp(p.x, width);
    let y = clamp(p.y, height);
    pic[y * width + x]
}
