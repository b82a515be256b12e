// The row that holds a pixel: its two ends, and its paint.
ghost use Rattle.std.specs.Prelude.{◌≡◌, ◌+◌, ◌*◌, ◌-◌, ◌<◌, ◌≤◌, length};
ghost use Rattle.fill.specs.Order.{left_end, right_end, row_at, paint_run};

use crate::seeds::past_run;
use pieces::Row;

// The leftmost column that is reached from x over bytes `from`, on the line y, which starts at base.
fn leftmost(pic: &[u8], w: usize, y: usize, base: usize, x: usize, from: u8) -> usize
    requires { (base ≡ y * w) × (base + x < length pic.now) }
    ensures { result ≡ left_end pic.now w from y x }
{
    for k in (0..x).rev() {
        if pic[base + k] != from {
            return k + 1;
        }
    }
    0
}

// The rightmost.
fn rightmost(pic: &[u8], w: usize, y: usize, base: usize, x: usize, from: u8) -> usize
    requires { (base ≡ y * w) × (x < w) × (base + w ≤ length pic.now) }
    ensures { result ≡ right_end pic.now w from y x (w - 1 - x) }
{
    past_run(pic, base, x + 1, w, from) - 1
}

// The row of bytes `from` that holds (x, y); the line y starts at base.
pub fn row_at(pic: &[u8], w: usize, y: usize, base: usize, x: usize, from: u8) -> Row
    requires { (base ≡ y * w) × (x < w) × (base + w ≤ length pic.now) }
    ensures { result ≡ row_at w from pic.now x y }
{
    let left = leftmost(pic, w, y, base, x, from);
    let right = rightmost(pic, w, y, base, x, from);
    Row {
        left: left,
        right: right,
        y: y,
    }
}

// Paints n bytes from `at` on. A single byte is written without the loop: rows of one pixel are frequent.
pub fn paint_run(pic: &mut [u8], at: usize, n: usize, to: u8)
    requires { at + n ≤ length pic.old }
    ensures { pic.new ≡ paint_run pic.old at n to }
{
    if n == 1 {
        pic[at] = to;
        return;
    }
    // A loop and no `fill`: with that, a claim of short rows takes a tenth longer.
    for k in 0..n {
        pic[at + k] = to;
    }
}
