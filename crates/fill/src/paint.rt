// The purposes: paint and count, and fill back to black.
ghost use Rattle.std.specs.Prelude.{length};
ghost use Rattle.pieces.specs.Paint.{Paints};
ghost use Rattle.fill.specs.Fill.{Fillable};
ghost use Rattle.fill.specs.Fold.{Counted};

use crate::step::{Stepped, fill_step, seed};

// Rows met, pixels painted, stack entries pushed.
#[derive(Clone, Copy)]
pub struct Counts {
    pub rows: usize,
    pub pixels: usize,
    pub pushes: usize,
}

// Paints the piece of (x, y) with `to`, and counts.
pub fn paint_and_count(
    pic: &mut [u8],
    w: usize,
    h: usize,
    stack: &mut [u32],
    x: usize,
    y: usize,
    to: u8,
) -> Counts
    requires { Fillable pic.old w h x y to (length stack.old) }
    ensures { Paints pic.old w h x y to pic.new × Counted pic.old w h x y to result }
{
    let from = seed(pic, w, h, x, y, stack);
    let mut sp = 1;
    let mut rows = 0;
    let mut pixels = 0;
    let mut pushes = 1;
    // The stack decides when it ends. As a finder (crate corners) the counts would be a type and an impl longer than this, and every fill would count pushes.
    while sp > 0 {
        let at = sp - 1;
        match fill_step(pic, w, h, from, to, stack, sp) {
            Stepped::Met(r, top) => {
                rows += 1;
                pixels += r.right - r.left + 1;
                pushes += top - at;
                sp = top;
            }
            Stepped::Passed(top) => {
                sp = top;
            }
        }
    }
    Counts {
        rows: rows,
        pixels: pixels,
        pushes: pushes,
    }
}

// Fills the piece of (x, y) back to black.
pub fn fill_black(pic: &mut [u8], w: usize, h: usize, stack: &mut [u32], x: usize, y: usize)
    requires { Fillable pic.old w h x y 1 (length stack.old) }
    ensures { Paints pic.old w h x y 1 pic.new }
{
    paint_and_count(pic, w, h, stack, x, y, 1);
}
