ghost use Rattle.std.specs.Prelude.{◌≡◌};
ghost use Rattle.refusals.specs.First.{first, sound};
ghost use Rattle.picture.specs.Verdict.{judged};
ghost use Rattle.picture.specs.Sides.{side, side_tests, room_tests, seed_tests};

use refusals::Refusal;

// Whether n is a side that a picture may have.
fn is_side(n: usize) -> bool
    ensures { result ≡ side n }
{
    if n == 0 {
        return false;
    }
    n <= 800
}

// The tests of a picture's sides and of its length: 1, 2.
pub fn sides(width: usize, height: usize, len: usize) -> Result<(), Refusal>
    ensures { judged result ≡ first (side_tests width height len) sound }
{
    if !is_side(width) {
        return Err(Refusal::Size);
    }
    if !is_side(height) {
        return Err(Refusal::Size);
    }
    if len != width * height {
        return Err(Refusal::Length);
    }
    Ok(())
}

// These, and that the caller lends room for each pixel: 1, 2, 3.
pub fn room(width: usize, height: usize, len: usize, lent: usize) -> Result<(), Refusal>
    ensures { judged result ≡ first (room_tests width height len lent) sound }
{
    sides(width, height, len)?;
    if lent < len {
        return Err(Refusal::Room);
    }
    Ok(())
}

// These, and that the seed is a pixel of the picture: 1, 2, 3, 5.
pub fn seeded(
    width: usize,
    height: usize,
    len: usize,
    lent: usize,
    x: usize,
    y: usize,
) -> Result<(), Refusal>
    ensures { judged result ≡ first (seed_tests width height len lent x y) sound }
{
    room(width, height, len, lent)?;
    if x >= width {
        return Err(Refusal::Outside);
    }
    if y >= height {
        return Err(Refusal::Outside);
    }
    Ok(())
}
