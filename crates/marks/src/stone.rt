// A mark's stone: the corners of its ring, its perspective and its centre (detect.rs, `create_capstone`).
ghost use Rattle.std.specs.Prelude.{◌≡◌, [], ◌∷◌, length};
ghost use Rattle.refusals.specs.Finding.{found};
ghost use Rattle.refusals.specs.First.{first};
ghost use Rattle.marks.specs.Stone.{meaning, stone, stone_tests, centred_stone, stone_of, Ringed, Rings, Creates};

use capstones::CapStone;
use corners::{AllCornerFinder, FirstCornerFinder, fill_and_find, point_at};
use geometry::{Perspective, Sight};
use points::Point;
use refusals::Refusal;
use stated::is_near;

// The stone of these corners, centre and perspective, after n others: 12 where its centre lies too far out, 11 where there is no room for it.
fn admitted(
    p0: Point,
    p1: Point,
    p2: Point,
    p3: Point,
    center: Point,
    c: Perspective,
    n: usize,
) -> Result<Option<CapStone>, Refusal>
    ensures { meaning result ≡ first (stone_tests center n) (found (stone p0 p1 p2 p3 center c ∷ [])) }
{
    if !is_near(center) {
        return Err(Refusal::Far);
    }
    if n >= 64 {
        return Err(Refusal::Stones);
    }
    Ok(Some(CapStone {
        corner0: p0,
        corner1: p1,
        corner2: p2,
        corner3: p3,
        center: center,
        c: c,
    }))
}

// The stone of these corners and their perspective: its centre is the middle of the seven by seven, 13 where that lies at no place.
fn centred(
    p0: Point,
    p1: Point,
    p2: Point,
    p3: Point,
    c: Perspective,
    n: usize,
) -> Result<Option<CapStone>, Refusal>
    ensures { meaning result ≡ centred_stone p0 p1 p2 p3 c n }
{
    let center = c.map(3.5, 3.5).ok_or(Refusal::Unplaced)?;
    admitted(p0, p1, p2, p3, center, c, n)
}

// The stone of four corners: nothing where they are flat.
fn stone_of(corners: AllCornerFinder, n: usize) -> Result<Option<CapStone>, Refusal>
    ensures { meaning result ≡ stone_of corners n }
{
    let ahead = corners.ahead;
    let right = corners.right;
    let behind = corners.behind;
    let left = corners.left;
    let p0 = ahead.place;
    let p1 = right.place;
    let p2 = behind.place;
    let p3 = left.place;
    match Perspective::create(p0, p1, p2, p3, 7.0, 7.0) {
        Sight::Made(c) => centred(p0, p1, p2, p3, c, n),
        Sight::Flat => Ok(None),
    }
}

// The corners of the ring at (x, y): it is filled with 4 for the first of them, and with 2 for all four.
fn ring_corners(
    pic: &mut [u8],
    width: usize,
    height: usize,
    stack: &mut [u32],
    x: usize,
    y: usize,
) -> AllCornerFinder
    requires { Ringed pic.old width height (length stack.old) x y }
    ensures { Rings pic.old width height x y result pic.new }
{
    let start = point_at(x, y);
    let finder = FirstCornerFinder::new(start);
    let first = fill_and_find(pic, width, height, stack, x, y, 4, finder);
    let best = first.best;
    let corner = best.place;
    let finders = AllCornerFinder::new(start, corner);
    fill_and_find(pic, width, height, stack, x, y, 2, finders)
}

// The stone of the ring at (x, y), after n others. The stone itself is not painted.
pub fn create_capstone(
    pic: &mut [u8],
    width: usize,
    height: usize,
    stack: &mut [u32],
    x: usize,
    y: usize,
    n: usize,
) -> Result<Option<CapStone>, Refusal>
    requires { Ringed pic.old width height (length stack.old) x y }
    ensures { Creates pic.old width height x y n (meaning result) pic.new }
{
    let corners = ring_corners(pic, width, height, stack, x, y);
    stone_of(corners, n)
}
