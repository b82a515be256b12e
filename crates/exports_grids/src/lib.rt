// Fitting a group of stones, for callers in C and in Rust. It asks nothing of its caller but that each pointer with its length is a slice.
#![tactic(auto)]

mod lent;
mod tell;

ghost use Rattle.std.specs.Prelude.{length};
ghost use Rattle.exports_grids.specs.Tells.{Tells};

use crate::lent::group_of;
use crate::tell::tell;
use fit::fit_group;
use told_places::lent::table_of;

// Fits a group of three stones: 0 with a grid, 255 with none, or the refusal 1, 2, 3, 9 or 12, and then as the steps of fit meet them.
// The stack has an entry for each pixel, and so has the scratch. Stone k stands as five points from places[10 k] on, its corners and its
// centre. The table goes in and comes back: its place k stands from counts[4 k] on, as the number that is the k-th newest and the entry of
// number k: column, line, pixels; counts[1004] is the number of entries. counts[1005] holds the grid's size afterwards, or 0, and floats its
// eight coefficients. A refusal leaves all as it was. 3 where there are fewer than 1006, 30 and 8 places.
#[unsafe(no_mangle)]
pub extern "C" fn elmetzhur_fit(
    pic: &mut [u8],
    width: usize,
    height: usize,
    stack: &mut [u32],
    scratch: &mut [u8],
    counts: &mut [usize],
    places: &[i32],
    floats: &mut [f64],
) -> u8
    ensures { Tells pic.old width height (length stack.old) (length scratch.old) places.now pic.new counts.old counts.new floats.old floats.new result }
{
    if counts.len() < 1006 {
        return 3;
    }
    if places.len() < 30 {
        return 3;
    }
    if floats.len() < 8 {
        return 3;
    }
    let table = table_of(counts);
    let group = group_of(places);
    let fitted = fit_group(pic, width, height, stack, scratch, table, group);
    let left = fitted.table;
    let found = fitted.fit;
    tell(found, left, counts, floats)
}
