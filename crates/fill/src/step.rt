// The step that every fill shares.
ghost use Rattle.std.specs.Prelude.{◌≡◌, [], ◌∷◌, ◌*◌, ◌<◌, length};
ghost use Rattle.pieces.specs.Picture.{px, pixel};
ghost use Rattle.fill.specs.Stack.{held};
ghost use Rattle.fill.specs.Fill.{Sized, Meetable, Meets, Steppable, Steps};

use crate::runs::{paint_run, row_at};
use crate::seeds::{seed_above, seed_below};
use pieces::Row;

// What a step did, with the stack's new size: it met a row, or passed over an entry whose pixel was painted by then.
#[derive(Clone, Copy)]
pub enum Stepped {
    Met(Row, usize),
    Passed(usize),
}

// Puts the seed (x, y) on the stack, alone, and answers the byte that it shows.
pub fn seed(pic: &[u8], w: usize, h: usize, x: usize, y: usize, stack: &mut [u32]) -> u8
    requires { Sized pic.now w h × (x < w) × (y < h) × (0 < length stack.old) }
    ensures { (result ≡ px pic.now w x y) × (held stack.new 1 ≡ pixel x y ∷ []) }
{
    let base = y * w;
    stack[0] = (y * 1024 + x) as u32;
    pic[base + x]
}

// Paints a row and pushes entries for the lines above and below it. Answers the stack's new size.
fn meet_row(
    pic: &mut [u8],
    w: usize,
    h: usize,
    r: Row,
    from: u8,
    to: u8,
    stack: &mut [u32],
    sp: usize,
) -> usize
    requires { Meetable pic.old w h r from to stack.old sp }
    ensures { Meets w h from to pic.old stack.old sp r pic.new stack.new result }
{
    let n = r.right - r.left + 1;
    let base = r.y * w;
    paint_run(pic, base + r.left, n, to);
    let top = seed_above(pic, w, h, r.y, r.left, n, from, stack, sp);
    seed_below(pic, w, h, r.y, r.left, n, from, stack, top)
}

// One turn of a fill: takes the last entry, and unless its pixel is painted by now, meets its row.
pub fn fill_step(
    pic: &mut [u8],
    w: usize,
    h: usize,
    from: u8,
    to: u8,
    stack: &mut [u32],
    sp: usize,
) -> Stepped
    requires { Steppable pic.old w h from to stack.old sp }
    ensures { Steps w h from to pic.old stack.old sp pic.new stack.new result }
{
    let at = sp - 1;
    let e = stack[at] as usize;
    let x = e % 1024;
    let y = e / 1024;
    let base = y * w;
    if pic[base + x] != from {
        return Stepped::Passed(at);
    }
    let r = row_at(pic, w, y, base, x, from);
    let end = meet_row(pic, w, h, r, from, to, stack, at);
    Stepped::Met(r, end)
}
