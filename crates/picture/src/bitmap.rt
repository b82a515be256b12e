ghost use Rattle.std.specs.Prelude.{◌≡◌};
ghost use Rattle.refusals.specs.First.{first, sound};
ghost use Rattle.picture.specs.Verdict.{judged};
ghost use Rattle.picture.specs.Bitmap.{bitmap, accept_tests};

use crate::ladder::sides;
use refusals::Refusal;

// Whether no byte is above 1.
fn is_bitmap(pic: &[u8]) -> bool
    ensures { result ≡ bitmap pic.now }
{
    // By the largest byte and not by `all`, which looks at one byte after the other and takes 20 times as long.
    let largest = pic.iter().fold(0u8, |a, &b| a.max(b));
    largest <= 1
}

// Whether a picture is a bitmap with these sides: 1, 2, 4.
pub fn accept(pic: &[u8], width: usize, height: usize) -> Result<(), Refusal>
    ensures { judged result ≡ first (accept_tests pic.now width height) sound }
{
    sides(width, height, pic.len())?;
    if !is_bitmap(pic) {
        return Err(Refusal::Byte);
    }
    Ok(())
}
