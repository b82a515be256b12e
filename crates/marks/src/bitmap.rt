// The search in any bitmap that a caller hands over: the tests of detect, then every mark.
ghost use Rattle.std.specs.Prelude.{◌≡◌, length};
ghost use Rattle.refusals.specs.First.{first, sound};
ghost use Rattle.picture.specs.Verdict.{judged};
ghost use Rattle.marks.specs.OfBitmap.{bitmap_tests, OfBitmap};

use crate::search::{Marks, capstones_from_image, none};
use picture::{accept, room};
use refusals::Refusal;
use table::empty;

// All tests before a search: 1, 2, 3, 4.
fn judge(pic: &[u8], width: usize, height: usize, lent: usize) -> Result<(), Refusal>
    ensures { judged result ≡ first (bitmap_tests pic.now width height lent) sound }
{
    room(width, height, pic.len(), lent)?;
    accept(pic, width, height)
}

// Finds all marks of a bitmap, from an empty table: 1, 2, 3, 4, then 13, 12, 11 as they are met. The stack has an entry for each pixel.
pub fn search_bitmap(pic: &mut [u8], width: usize, height: usize, stack: &mut [u32]) -> Marks
    ensures { OfBitmap pic.old width height (length stack.old) pic.new result }
{
    match judge(pic, width, height, stack.len()) {
        Err(why) => none(Err(why), empty()),
        Ok(()) => capstones_from_image(pic, width, height, stack, empty()),
    }
}
