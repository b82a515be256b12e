// Lookup, for callers in C and in Rust. It asks nothing of its caller but that each pointer with its length is a slice.
#![tactic(auto)]

ghost use Rattle.std.specs.Prelude.{◌≡◌, ◌+◌, ◌≤◌, length};
ghost use Rattle.picture.specs.Colour.{byte_of, Shown};
ghost use Rattle.regions.specs.Found.{meaning};
ghost use Rattle.told_places.specs.Values.{table_put};
ghost use Rattle.exports_regions.specs.Tells.{ShownBy, status_of, counts_after, Tells};

use picture::{PixelColor, byte_of};
use refusals::Refusal;
use regions::{ColoredRegion, Region, look_up};
use table::Table;
use told_places::entries::put_table;
use told_places::lent::table_of;

// A claimed piece: its colour, and no pixel count.
fn put_claimed(color: PixelColor, left: Table, counts: &mut [usize]) -> u8
    requires { (1007 ≤ length counts.old) × Shown color }
    ensures { (result ≡ 0) × (counts.new ≡ table_put left (byte_of color) 0 counts.old) }
{
    let byte = byte_of(color);
    put_table(left, byte as usize, 0, counts);
    0
}

// An unclaimed one: the colour of its number, and its pixel count.
fn put_unclaimed(region: Region, left: Table, counts: &mut [usize]) -> u8
    requires { 1007 ≤ length counts.old }
    ensures { (result ≡ 0) × (counts.new ≡ table_put left (5 + region.number) region.entry.px counts.old) }
{
    let number = region.number as usize;
    let pixels = region.entry.px as usize;
    put_table(left, 5 + number, pixels, counts);
    0
}

// The answer: a piece's region, with the table that the lookup left, or a refusal's number.
fn tell(found: Result<ColoredRegion, Refusal>, left: Table, counts: &mut [usize]) -> u8
    requires { (1007 ≤ length counts.old) × ShownBy (meaning found) }
    ensures { (result ≡ status_of (meaning found)) × (counts.new ≡ counts_after (meaning found) left counts.old) }
{
    match found {
        Ok(ColoredRegion::Claimed(color)) => put_claimed(color, left, counts),
        Ok(ColoredRegion::Unclaimed(region)) => put_unclaimed(region, left, counts),
        Err(why) => u8::from(why),
    }
}

// Looks the piece of (x, y) up: 0, or the refusal 1, 2, 3, 5, 9, 6 or 10. The stack has an entry for each pixel. The table goes in and
// comes back: its place k stands from counts[4 k] on, as the number that is the k-th newest and the entry of number k: column, line,
// pixels; counts[1004] is the number of entries. counts[1005] holds the piece's colour afterwards, 2, 3 or 4 for a claimed one, else its
// number plus 5, and counts[1006] its pixel count, 0 for a claimed one. A refusal leaves all as it was. 3 where counts has fewer than 1007
// places.
#[unsafe(no_mangle)]
pub extern "C" fn elmetzhur_look_up(
    pic: &mut [u8],
    width: usize,
    height: usize,
    stack: &mut [u32],
    x: usize,
    y: usize,
    counts: &mut [usize],
) -> u8
    ensures { Tells pic.old width height (length stack.old) x y pic.new counts.old counts.new result }
{
    if counts.len() < 1007 {
        return 3;
    }
    let table = table_of(counts);
    let looked = look_up(pic, width, height, stack, table, x, y);
    let left = looked.table;
    let found = looked.found;
    tell(found, left, counts)
}
