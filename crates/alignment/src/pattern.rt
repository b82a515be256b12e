// The alignment pattern at the place that the spiral answers: it is claimed, and its corner to the left of a line is taken (identify/grid.rs, `from_group`).
ghost use Rattle.std.specs.Prelude.{length};
ghost use Rattle.alignment.specs.Pattern.{Claimable, Aligns};

use corners::{LeftMostFinder, fill_and_find};
use points::Point;
use sizes::unsigned_abs;

// Claims the piece at a place as the alignment pattern, and answers its point farthest to the left of the line `hd`.
pub fn leftmost(
    pic: &mut [u8],
    width: usize,
    height: usize,
    stack: &mut [u32],
    at: Point,
    hd: Point,
) -> Point
    requires { Claimable pic.old width height (length stack.old) at hd }
    ensures { Aligns pic.old width height at hd result pic.new }
{
    let x = unsigned_abs(at.x) as usize;
    let y = unsigned_abs(at.y) as usize;
    let finder = LeftMostFinder::new(hd, at);
    let found = fill_and_find(pic, width, height, stack, x, y, 3, finder);
    let best = found.best;
    best.place
}
