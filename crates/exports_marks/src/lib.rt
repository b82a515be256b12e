// The search for marks, for callers in C and in Rust: the first half of detect. It asks nothing of its caller but that each pointer with
// its length is a slice.
#![tactic(auto)]

mod stones;

ghost use Rattle.std.specs.Prelude.{length};
ghost use Rattle.exports_marks.specs.Tells.{Tells};

use crate::stones::put_stones;
use marks::search_bitmap;
use told_places::entries::put_counted;
use told_places::status_of;

// Finds all marks of a bitmap, from an empty region table: 0, or the refusal 1, 2, 3, 4, 11, 12 or 13. The stack has an entry for each
// pixel. The picture keeps the paint, also after 11, 12 and 13. Stone k stands as five points from places[10 k] on, its corners and its
// centre, and as eight coefficients from floats[8 k] on, blank from the number of stones on; the table's place k stands from
// counts[4 k] on, as the number that is the k-th newest and the entry of number k: column, line, pixels. counts[1004] is the number of
// entries, counts[1005] the number of stones. 3 where there are fewer than 640, 512 and 1006 places, with all as it was.
#[unsafe(no_mangle)]
pub extern "C" fn elmetzhur_capstones(
    pic: &mut [u8],
    width: usize,
    height: usize,
    stack: &mut [u32],
    places: &mut [i32],
    floats: &mut [f64],
    counts: &mut [usize],
) -> u8
    ensures { Tells pic.old width height (length stack.old) pic.new places.old places.new floats.old floats.new counts.old counts.new result }
{
    if places.len() < 640 {
        return 3;
    }
    if floats.len() < 512 {
        return 3;
    }
    if counts.len() < 1006 {
        return 3;
    }
    let marks = search_bitmap(pic, width, height, stack);
    let stones = marks.stones;
    let table = marks.table;
    put_stones(stones, places, floats);
    put_counted(table, marks.n, counts);
    let verdict = marks.verdict;
    status_of(verdict)
}
