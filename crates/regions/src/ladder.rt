ghost use Rattle.std.specs.Prelude.{◌≡◌, ◌<◌, length};
ghost use Rattle.refusals.specs.First.{first, sound};
ghost use Rattle.picture.specs.Verdict.{judged};
ghost use Rattle.picture.specs.Sides.{Sized};
ghost use Rattle.regions.specs.Tests.{unlisted, own_tests, look_tests};

use picture::seeded;
use refusals::Refusal;
use table::{Table, is_sound};

// Whether a byte is a number that none of n entries has.
pub fn is_unlisted(byte: u8, n: usize) -> bool
    ensures { result ≡ unlisted byte n }
{
    if byte < 5 {
        return false;
    }
    let number = (byte - 5) as usize;
    n <= number
}

// The tests of a lookup that are its own: 9, 6, 10.
fn own(
    pic: &[u8],
    width: usize,
    height: usize,
    table: Table,
    x: usize,
    y: usize,
) -> Result<(), Refusal>
    requires { Sized width height (length pic.now) × (x < width) × (y < height) }
    ensures { judged result ≡ first (own_tests pic.now width height table x y) sound }
{
    if !is_sound(table, width, height) {
        return Err(Refusal::Table);
    }
    let base = y * width;
    let byte = pic[base + x];
    if byte == 0 {
        return Err(Refusal::White);
    }
    if is_unlisted(byte, table.n) {
        return Err(Refusal::Number);
    }
    Ok(())
}

// All the tests of a lookup: 1, 2, 3, 5, 9, 6, 10.
pub fn lookable(
    pic: &[u8],
    width: usize,
    height: usize,
    lent: usize,
    table: Table,
    x: usize,
    y: usize,
) -> Result<(), Refusal>
    ensures { judged result ≡ first (look_tests pic.now width height lent table x y) sound }
{
    seeded(width, height, pic.len(), lent, x, y)?;
    own(pic, width, height, table, x, y)
}
