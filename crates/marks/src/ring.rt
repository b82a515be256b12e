// The ring test: whether a cut goes through a ring and its stone (detect.rs, `is_capstone`).
ghost use Rattle.std.specs.Prelude.{◌≡◌, ◌<◌, eqb, length};
ghost use Rattle.picture.specs.Sides.{Sized};
ghost use Rattle.pieces.specs.Picture.{px};
ghost use Rattle.regions.specs.Found.{meaning};
ghost use Rattle.marks.specs.Ring.{Countable, Counted, Testable, suits, paired, passes};

use refusals::Refusal;
use regions::{ColoredRegion, Region};
use rings::is_ring_like;
use scanner::LinePosition;

// Whether a stone suits a ring: of another number, and of a size that the ring asks for.
fn is_suited(outer: Region, inner: Region) -> bool
    requires { Counted outer × Counted inner }
    ensures { result ≡ suits outer inner }
{
    if outer.number == inner.number {
        return false;
    }
    is_ring_like(inner.entry.px, outer.entry.px)
}

// Whether two lookups give an unclaimed ring and an unclaimed stone that suits it.
fn is_pair(outer: Result<ColoredRegion, Refusal>, inner: Result<ColoredRegion, Refusal>) -> bool
    requires { Countable (meaning outer) × Countable (meaning inner) }
    ensures { result ≡ paired (meaning outer) (meaning inner) }
{
    match outer {
        Ok(ColoredRegion::Unclaimed(ring)) => match inner {
            Ok(ColoredRegion::Unclaimed(stone)) => is_suited(ring, stone),
            Ok(ColoredRegion::Claimed(_)) => false,
            Err(_) => false,
        },
        Ok(ColoredRegion::Claimed(_)) => false,
        Err(_) => false,
    }
}

// Whether two columns of line y show one byte.
fn is_same(pic: &[u8], width: usize, height: usize, left: usize, right: usize, y: usize) -> bool
    requires { Sized width height (length pic.now) × (left < width) × (right < width) × (y < height) }
    ensures { result ≡ eqb (px pic.now width left y) (px pic.now width right y) }
{
    let base = y * width;
    pic[base + left] == pic[base + right]
}

// Whether a cut of line y goes through a ring and its stone, once both are looked up.
pub fn is_capstone(
    pic: &[u8],
    width: usize,
    height: usize,
    cut: LinePosition,
    y: usize,
    ring: Result<ColoredRegion, Refusal>,
    stone: Result<ColoredRegion, Refusal>,
) -> bool
    requires { Testable pic.now width height y cut (meaning ring) (meaning stone) }
    ensures { result ≡ passes pic.now width y cut (meaning ring) (meaning stone) }
{
    if !is_same(pic, width, height, cut.left, cut.right, y) {
        return false;
    }
    is_pair(ring, stone)
}
